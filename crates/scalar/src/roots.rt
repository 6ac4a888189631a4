// The root of order m. Its definition halves 63 times; the code takes a guess and asks the same test of it and of its
// two neighbours, since a law says that a pattern which passes while the next does not is the answer. Where the guess
// is off, it halves around it, or between all patterns.
ghost use Rattle.std.specs.Prelude.{◌≡◌, ◌<◌, ◌≤◌};
ghost use Rattle.scalar.specs.Products.{product};
ghost use Rattle.words.specs.Patterns.{infinity_pattern};
ghost use Rattle.scalar.specs.Root.{keeps, root_of};
ghost use Rattle.scalar.specs.Steps.{Ordered, Ends, Seen};

use crate::guesses::root_guess;
use crate::patterns::{INFINITY, number};

// A root that is to be found: of an order that has one, and of a number above zero and below infinity.
#[derive(Clone, Copy)]
struct Sought {
    m: u64,
    v: f64,
    ghost has_root: { Ordered m v },
}

// The root of order m of v, for every m and v: 01's halving, bit for bit. NaN for an order outside 1 to
// 17, a negative v or a NaN.
pub fn root(m: u64, v: f64) -> f64
    ensures { result ≡ root_of m v }
{
    if m < 1 || 17 < m {
        return f64::NAN;
    }
    if v.is_nan() || v < 0.0 {
        return f64::NAN;
    }
    if v == 0.0 {
        return 0.0;
    }
    if v == f64::INFINITY {
        return v;
    }
    Sought { m, v }.root()
}

impl Sought {
    fn root(self) -> f64
        ensures { result ≡ root_of self.m self.v }
    {
        let g = root_guess(self.m, self.v.to_bits(), self.v);
        if 0 < g {
            return self.settled(g, self.keeps(g - 1), self.keeps(g), self.keeps(g + 1));
        }
        self.anywhere()
    }

    // The root from a guess and what the test says of it and of its neighbours: a good guess makes it fast, and
    // no guess makes it wrong.
    fn settled(self, g: u64, below: bool, here: bool, next: bool) -> f64
        requires { Seen self.m self.v g below here next }
        ensures { result ≡ root_of self.m self.v }
    {
        if below && !next {
            return number(g - 1 + u64::from(here));
        }
        self.around(g)
    }

    // The root from a guess that is at most 16 patterns off, or from one that is no good.
    fn around(self, g: u64) -> f64
        ensures { result ≡ root_of self.m self.v }
    {
        if 16 <= g && g < INFINITY - 16 && self.keeps(g - 16) && !self.keeps(g + 16) {
            return self.between(g - 16, g + 16);
        }
        self.anywhere()
    }

    // The root as its definition has it: by halving between the patterns of +0 and infinity.
    fn anywhere(self) -> f64
        ensures { result ≡ root_of self.m self.v }
    {
        self.between(0, INFINITY)
    }

    // The root by halving between two patterns from which it is known to lie: at most 63 passes.
    fn between(self, from: u64, to: u64) -> f64
        requires { Ends self.m self.v from to }
        ensures { result ≡ root_of self.m self.v }
    {
        let mut low = from;
        let mut high = to;
        while 1 < high - low {
            let middle = low + (high - low) / 2;
            if self.keeps(middle) {
                low = middle;
            } else {
                high = middle;
            }
        }
        number(low)
    }

    // Whether the number with the pattern b is kept below the root.
    #[tactic(auto, unfolding(crate::specs::Root::keeps))]
    fn keeps(self, b: u64) -> bool
        requires { b ≤ infinity_pattern }
        ensures { result ≡ keeps self.m self.v b }
    {
        product_of(self.m, number(b)) <= self.v
    }
}

// The m-fold product of x, from the left.
fn product_of(m: u64, x: f64) -> f64
    requires { 0 < m }
    ensures { result ≡ product m x }
{
    let mut p = x;
    for _ in 1..m {
        p *= x;
    }
    p
}

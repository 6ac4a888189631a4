// Real entries. The update of a matrix goes along the rows, which lie in one piece, up to the last multiplier that is
// not zero, where lu.rs (86-118) goes along the columns; it leaves what lu.rs leaves (proofs/Rows.antt).
ghost use Rattle.std.specs.Prelude.{◌≡◌, ◌+◌, ◌<◌, List, Float};
ghost use Rattle.words.specs.Loop.{loop};
ghost use Rattle.words.specs.Grid.{Square};
ghost use Rattle.matrix.specs.Lu.{real};
ghost use Rattle.matrix.specs.Reordered.{IdleFrom, added_of, row_at, real_entries};

use crate::elimination::swap_rows;
use crate::entry::{Entry, Update};
use crate::grid::{at, put};
use scalar::abs;

impl Entry for f64 {
    ghost Lent = { List Float };

    ghost lent = { λ re im. re };

    ghost imaginary = { 0 };

    ghost kind = { real };

    ghost entries = { real_entries };

    fn at(n: usize, re: &[f64], _im: &[f64], i: usize, k: usize) -> f64 {
        at(n, re, i, k)
    }

    fn put(self, n: usize, re: &mut [f64], _im: &mut [f64], i: usize, k: usize) {
        put(n, re, i, k, self);
    }

    fn read(re: &[f64], _im: &[f64], i: usize) -> f64 {
        re[i]
    }

    fn write(self, re: &mut [f64], _im: &mut [f64], i: usize) {
        re[i] = self;
    }

    fn size(self) -> f64 {
        abs(self)
    }

    #[tactic(auto, unfolding(crate::specs::Lu::is_zero))]
    fn is_zero(self) -> bool {
        self == 0.0
    }

    #[tactic(auto, unfolding(crate::specs::Lu::reciprocal))]
    fn reciprocal(self) -> f64 {
        1.0 / self
    }

    #[tactic(auto, unfolding(crate::specs::Lu::multiplier))]
    fn multiplier(self, t: f64) -> f64 {
        -self * t
    }

    fn more(self, x: f64, y: f64) -> f64 {
        self + x * y
    }

    fn less(self, x: f64, y: f64) -> f64 {
        self + x * -y
    }

    fn over(self, z: f64) -> f64 {
        self / z
    }
}

impl Update for f64 {
    fn update(n: usize, re: &mut [f64], im: &mut [f64], k: usize, m: usize) {
        swap_rows::<f64>(n, re, im, k, m);
        update_rows(n, re, k);
    }
}

// x times t is added to y, unless t is zero.
#[tactic(auto, unfolding(crate::specs::Reordered::added_of, words::specs::Loop::pick))]
fn added(x: f64, t: f64, y: f64) -> f64
    ensures { result ≡ added_of x t y }
{
    if t != 0.0 {
        return y + x * t;
    }
    y
}

// One more than the last column past k whose multiplier is not zero; k + 1 where there is none. From the right: without
// zeros it is found at once.
fn multipliers_end(n: usize, a: &[f64], k: usize) -> usize
    requires square { Square n a.now }
    requires k_lt_n { k < n }
    ensures { IdleFrom real added_of n k result a.now }
{
    for j in (k + 1..n).rev() {
        if at(n, a, k, j) != 0.0 {
            return j + 1;
        }
    }
    k + 1
}

// From column k + 1 on, up to `end`, row i gains row k times its own entry in column k. Past
// `end` it would gain nothing.
fn update_row(n: usize, a: &mut [f64], k: usize, i: usize, end: usize)
    requires square { Square n a.old }
    requires k_lt_i { (k < i) × (i < n) }
    requires idle_from { IdleFrom real added_of n k end a.old }
    ensures { a.new ≡ row_at real added_of n k i a.old }
{
    let x = at(n, a, i, k);
    for j in k + 1..end {
        let y = added(x, at(n, a, k, j), at(n, a, i, j));
        put(n, a, i, j, y);
    }
}

fn update_rows(n: usize, a: &mut [f64], k: usize)
    requires square { Square n a.old }
    requires k_lt_n { k < n }
    ensures { a.new ≡ loop (row_at real added_of n k) (k + 1) n a.old }
{
    let end = multipliers_end(n, a, k);
    for i in k + 1..n {
        update_row(n, a, k, i, end);
    }
}

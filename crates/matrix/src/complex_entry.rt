// Complex entries, in two slices. The three loops of lu.rs's update (270-296) are one (proofs/Cases.antt). It stays in
// lu.rs's column order: along the rows the multiplier would change with every entry.
ghost use Rattle.std.specs.Prelude.{◌≡◌, ◌+◌, ◌<◌};
ghost use Rattle.words.specs.Loop.{loop};
ghost use Rattle.matrix.specs.Complex.{Parts, parts};
ghost use Rattle.matrix.specs.Elimination.{column_at};
ghost use Rattle.matrix.specs.LuComplex.{complex_kind};
ghost use Rattle.matrix.specs.Lent.{IsMatrix};
ghost use Rattle.matrix.specs.Reordered.{multiplied_of, multiplied_at, complex_entries};

use crate::complex::Complex;
use crate::elimination::swap;
use crate::entry::{Entry, Update};
use crate::grid::{at, put};
use scalar::abs;

impl Entry for Complex {
    ghost Lent = { Parts };

    ghost lent = { parts };

    ghost imaginary = { 1 };

    ghost kind = { complex_kind };

    ghost entries = { complex_entries };

    #[tactic(auto, unfolding(crate::specs::Complex::at_complex))]
    fn at(n: usize, re: &[f64], im: &[f64], i: usize, k: usize) -> Complex {
        Complex {
            re: at(n, re, i, k),
            im: at(n, im, i, k),
        }
    }

    #[tactic(auto, unfolding(crate::specs::Complex::put_complex))]
    fn put(self, n: usize, re: &mut [f64], im: &mut [f64], i: usize, k: usize) {
        put(n, re, i, k, self.re);
        put(n, im, i, k, self.im);
    }

    #[tactic(auto, unfolding(crate::specs::Complex::entry_complex))]
    fn read(re: &[f64], im: &[f64], i: usize) -> Complex {
        Complex {
            re: re[i],
            im: im[i],
        }
    }

    #[tactic(auto, unfolding(crate::specs::Complex::set_complex))]
    fn write(self, re: &mut [f64], im: &mut [f64], i: usize) {
        re[i] = self.re;
        im[i] = self.im;
    }

    #[tactic(auto, unfolding(crate::specs::Complex::size_complex))]
    fn size(self) -> f64 {
        abs(self.re) + abs(self.im)
    }

    #[tactic(auto, unfolding(crate::specs::LuComplex::is_zero_complex))]
    fn is_zero(self) -> bool {
        self.size() == 0.0
    }

    #[tactic(auto, unfolding(crate::specs::Complex::reciprocal_complex))]
    fn reciprocal(self) -> Complex {
        let den = self.square();
        Complex {
            re: self.re / den,
            im: -self.im / den,
        }
    }

    #[tactic(auto, unfolding(crate::specs::LuComplex::multiplier_complex))]
    fn multiplier(self, t: Complex) -> Complex {
        -(self * t)
    }

    fn more(self, x: Complex, y: Complex) -> Complex {
        self + x * y
    }

    fn less(self, x: Complex, y: Complex) -> Complex {
        self + x * -y
    }

    fn over(self, z: Complex) -> Complex {
        self / z
    }
}

impl Update for Complex {
    fn update(n: usize, re: &mut [f64], im: &mut [f64], k: usize, m: usize) {
        for j in k + 1..n {
            column(n, re, im, k, m, j);
        }
    }
}

// x times the multiplier t, of which a part that is zero is left out.
#[tactic(auto, unfolding(crate::specs::Reordered::multiplied_of, words::specs::Loop::pick))]
fn multiplied(t: Complex, x: Complex) -> Complex
    ensures { result ≡ multiplied_of t x }
{
    if t.im == 0.0 {
        return Complex {
            re: x.re * t.re,
            im: x.im * t.re,
        };
    }
    if t.re == 0.0 {
        return Complex {
            re: -x.im * t.im,
            im: x.re * t.im,
        };
    }
    x * t
}

// Below row k, column j gains column k times t. The tests of t are the same in every turn.
fn update_column(n: usize, ar: &mut [f64], ai: &mut [f64], k: usize, j: usize, t: Complex)
    requires matrix { IsMatrix 1 n ar.old ai.old }
    requires k_lt_n { (k < n) × (j < n) }
    ensures { parts ar.new ai.new
        ≡ loop (multiplied_at n k j t) (k + 1) n (parts ar.old ai.old) }
{
    for i in k + 1..n {
        let x = Complex::at(n, ar, ai, i, k);
        let y = Complex::at(n, ar, ai, i, j);
        (y + multiplied(t, x)).put(n, ar, ai, i, j);
    }
}

// Column j: the two rows change places, and what stood in row m is the multiplier.
fn column(n: usize, ar: &mut [f64], ai: &mut [f64], k: usize, m: usize, j: usize)
    requires matrix { IsMatrix 1 n ar.old ai.old }
    requires k_lt_n { (k < n) × (m < n) × (j < n) }
    ensures { parts ar.new ai.new
        ≡ column_at complex_kind n k m j (parts ar.old ai.old) }
{
    let t = Complex::at(n, ar, ai, m, j);
    swap::<Complex>(n, ar, ai, k, m, j);
    if !t.is_zero() {
        update_column(n, ar, ai, k, j, t);
    }
}

// The entries of matrices and vectors, real or complex, in lent memory: what the routines, which are the same for both
// kinds, ask of them. Real parts lie in `re`; imaginary ones in `im`, which is empty where the entries are real.
ghost use Rattle.std.specs.Prelude.{◌≡◌, ℕ, ◌+◌, ◌<◌, List, length, Float};
ghost use Rattle.words.specs.Loop.{loop};
ghost use Rattle.matrix.specs.Elimination.{Kind, column_at};
ghost use Rattle.matrix.specs.Reordered.{Entries};
ghost use Rattle.matrix.specs.Lent.{IsMatrix, IsVector};

pub trait Entry: Copy {
    // What the two slices stand for.
    ghost Lent: { Type 0 };

    ghost lent: { List Float → List Float → Lent };

    ghost imaginary: { ℕ };

    ghost kind: { Kind Lent Self };

    ghost entries: { Entries Lent Lent Self };

    // Row i, column k of a matrix: the Rust's `a[(i, k)]`.
    fn at(n: usize, re: &[f64], im: &[f64], i: usize, k: usize) -> Self
        requires matrix { IsMatrix imaginary n re.now im.now }
        requires within { (i < n) × (k < n) }
        ensures of_kind { result ≡ kind.at (lent re.now im.now) n i k }
        ensures of_entries { result ≡ entries.cell (lent re.now im.now) n i k };

    fn put(self, n: usize, re: &mut [f64], im: &mut [f64], i: usize, k: usize)
        requires matrix { IsMatrix imaginary n re.old im.old }
        requires within { (i < n) × (k < n) }
        ensures { lent re.new im.new ≡ kind.put (lent re.old im.old) n i k self };

    // Entry i of a vector.
    fn read(re: &[f64], im: &[f64], i: usize) -> Self
        requires vector { IsVector imaginary (length re.now) re.now im.now }
        requires within { i < length re.now }
        ensures { result ≡ entries.at (lent re.now im.now) i };

    fn write(self, re: &mut [f64], im: &mut [f64], i: usize)
        requires vector { IsVector imaginary (length re.old) re.old im.old }
        requires within { i < length re.old }
        ensures { lent re.new im.new ≡ entries.put (lent re.old im.old) i self };

    // What the search for a pivot compares, and the test for a pivot that is zero.
    fn size(self) -> f64
        ensures { result ≡ kind.size self };

    fn is_zero(self) -> bool
        ensures { result ≡ kind.is_zero self };

    fn reciprocal(self) -> Self
        ensures { result ≡ kind.reciprocal self };

    // What a row stores in place of itself, t being 1 over the pivot.
    fn multiplier(self, t: Self) -> Self
        ensures { result ≡ kind.multiplier self t };

    // With x times y added, and with x times y taken away.
    fn more(self, x: Self, y: Self) -> Self
        ensures { result ≡ entries.more self x y };

    fn less(self, x: Self, y: Self) -> Self
        ensures { result ≡ entries.less self x y };

    fn over(self, z: Self) -> Self
        ensures { result ≡ entries.over self z };
}

// Entries of matrices that are eliminated.
pub trait Update: Entry {
    // What pass k does past its own column, its pivot in row m: the rows change places, and those below gain.
    fn update(n: usize, re: &mut [f64], im: &mut [f64], k: usize, m: usize)
        requires matrix { IsMatrix Self.imaginary n re.old im.old }
        requires within { (k < n) × (m < n) }
        ensures { Self.lent re.new im.new
            ≡ loop (column_at Self.kind n k m) (k + 1) n (Self.lent re.old im.old) };
}

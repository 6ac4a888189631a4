// The phases of `lin_solve` (linear.rs:58-93) and `lin_solve_complex` (147-214), on slices whose lengths and pivots
// were tested. The forward phase goes loop by loop as in linear.rs, the back phase along the rows, which lie in one
// piece; that leaves what linear.rs leaves (proofs/Backward.antt), the order 1 included.
ghost use Rattle.std.specs.Prelude.{◌≡◌, ℕ, ◌+◌, ◌-◌, ◌<◌, ◌≤◌, length, get_or};
ghost use Rattle.words.specs.Loop.{loop};
ghost use Rattle.matrix.specs.Substitution.{exchanged};
ghost use Rattle.matrix.specs.Lent.{IsMatrix, IsVector};
ghost use Rattle.matrix.specs.Reordered.{gained_at, stepped, stepped_at, row_solved_at, solved_by_rows};

use crate::entry::Entry;

// Entries m and k change places.
#[tactic(auto, unfolding(crate::specs::Substitution::exchanged))]
fn exchange<E: Entry>(br: &mut [f64], bi: &mut [f64], m: usize, k: usize)
    requires vector { IsVector E.imaginary (length br.old) br.old bi.old }
    requires within { (m < length br.old) × (k < length br.old) }
    ensures { E.lent br.new bi.new
        ≡ exchanged E.entries.at E.entries.put m k (E.lent br.old bi.old) }
{
    let upper = E::read(br, bi, k);
    let lower = E::read(br, bi, m);
    upper.write(br, bi, m);
    lower.write(br, bi, k);
}

// Below entry k, the entries gain t times column k.
fn gain_column<E: Entry>(
    n: usize,
    ar: &[f64],
    ai: &[f64],
    br: &mut [f64],
    bi: &mut [f64],
    k: usize,
    t: E,
)
    requires matrix { IsMatrix E.imaginary n ar.now ai.now }
    requires vector { IsVector E.imaginary n br.old bi.old }
    requires within { k < n }
    ensures { E.lent br.new bi.new
        ≡ loop (gained_at E.entries (E.lent ar.now ai.now) n k t) (k + 1) n
        (E.lent br.old bi.old) }
{
    for i in k + 1..n {
        let x = E::read(br, bi, i);
        x.more(E::at(n, ar, ai, i, k), t).write(br, bi, i);
    }
}

// Step k of the forward phase, its pivot in row m.
#[tactic(auto, unfolding(crate::specs::Reordered::stepped))]
fn forward_step<E: Entry>(
    n: usize,
    ar: &[f64],
    ai: &[f64],
    br: &mut [f64],
    bi: &mut [f64],
    k: usize,
    m: usize,
)
    requires matrix { IsMatrix E.imaginary n ar.now ai.now }
    requires vector { IsVector E.imaginary n br.old bi.old }
    requires within { (k < n) × (m < n) }
    ensures { E.lent br.new bi.new
        ≡ stepped E.entries (E.lent ar.now ai.now) n k m (E.lent br.old bi.old) }
{
    let t = E::read(br, bi, m);
    exchange::<E>(br, bi, m, k);
    gain_column(n, ar, ai, br, bi, k, t);
}

fn forward_phase<E: Entry>(
    n: usize,
    ar: &[f64],
    ai: &[f64],
    br: &mut [f64],
    bi: &mut [f64],
    ip: &[usize],
)
    requires matrix { IsMatrix E.imaginary n ar.now ai.now }
    requires vector { IsVector E.imaginary n br.old bi.old }
    requires ip_len { (length ip.now ≡ n) × (1 ≤ n) }
    requires by_index { (k : ℕ) → k < n - 1 → get_or ip.now k 0 < n }
    ensures { E.lent br.new bi.new
        ≡ loop (stepped_at E.entries (E.lent ar.now ai.now) n ip.now) 0 (n - 1)
        (E.lent br.old bi.old) }
{
    for k in 0..n - 1 {
        forward_step::<E>(n, ar, ai, br, bi, k, ip[k]);
    }
}

// Row i of the back phase: its entry loses what the entries below it, solved by then, take from it, the last of them
// first, and is divided by the diagonal entry.
fn solve_row<E: Entry>(n: usize, ar: &[f64], ai: &[f64], br: &mut [f64], bi: &mut [f64], i: usize)
    requires matrix { IsMatrix E.imaginary n ar.now ai.now }
    requires vector { IsVector E.imaginary n br.old bi.old }
    requires within { i < n }
    ensures { E.lent br.new bi.new
        ≡ row_solved_at E.entries (E.lent ar.now ai.now) n (n - i)
        (E.lent br.old bi.old) }
{
    let mut sum = E::read(br, bi, i);
    for k in (i + 1..n).rev() {
        sum = sum.less(E::at(n, ar, ai, i, k), E::read(br, bi, k));
    }
    sum.over(E::at(n, ar, ai, i, i)).write(br, bi, i);
}

fn back_phase<E: Entry>(n: usize, ar: &[f64], ai: &[f64], br: &mut [f64], bi: &mut [f64])
    requires matrix { IsMatrix E.imaginary n ar.now ai.now }
    requires vector { IsVector E.imaginary n br.old bi.old }
    ensures { E.lent br.new bi.new
        ≡ loop (row_solved_at E.entries (E.lent ar.now ai.now) n) 1 (n + 1)
        (E.lent br.old bi.old) }
{
    for i in (0..n).rev() {
        solve_row::<E>(n, ar, ai, br, bi, i);
    }
}

// The whole routine past its refusals.
#[tactic(auto, unfolding(crate::specs::Reordered::solved_by_rows))]
pub fn solve<E: Entry>(
    n: usize,
    ar: &[f64],
    ai: &[f64],
    br: &mut [f64],
    bi: &mut [f64],
    ip: &[usize],
)
    requires matrix { IsMatrix E.imaginary n ar.now ai.now }
    requires vector { IsVector E.imaginary n br.old bi.old }
    requires ip_len { (length ip.now ≡ n) × (1 ≤ n) }
    requires by_index { (k : ℕ) → k < n - 1 → get_or ip.now k 0 < n }
    ensures { E.lent br.new bi.new
        ≡ solved_by_rows E.entries (E.lent ar.now ai.now) n ip.now (E.lent br.old bi.old) }
{
    forward_phase::<E>(n, ar, ai, br, bi, ip);
    back_phase::<E>(n, ar, ai, br, bi);
}

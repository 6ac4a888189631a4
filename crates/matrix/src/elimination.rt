// The elimination of `lu_decomp` (lu.rs:55-126) and `lu_decomp_complex` (198-305), on matrices and pivots whose lengths
// were tested. Loop by loop as in lu.rs, but for the update of the rest of the matrix.
ghost use Rattle.std.specs.Prelude.{◌≡◌, ◌+◌, ◌-◌, ◌<◌, ◌≤◌, length};
ghost use Rattle.words.specs.Loop.{loop};
ghost use Rattle.matrix.specs.Answers.{nowhere, decomposition};
ghost use Rattle.matrix.specs.Elimination.{work, pivot_row, swapped, scaled_at, eliminated};
ghost use Rattle.matrix.specs.Elimination.{passed, pass_at, last_tested, worked, answered};
ghost use Rattle.matrix.specs.Lent.{IsMatrix};

use crate::answers::DecompositionError;
use crate::entry::{Entry, Update};

// The row, from k on, of the largest entry of column k: the first of them.
fn find_pivot<E: Entry>(n: usize, re: &[f64], im: &[f64], k: usize) -> usize
    requires matrix { IsMatrix E.imaginary n re.now im.now }
    requires k_lt_n { k < n }
    ensures value { result ≡ pivot_row E.kind n (E.lent re.now im.now) k }
    ensures upper_bound { result < n }
{
    let mut m = k;
    let mut max_val = E::at(n, re, im, k, k).size();
    for i in k + 1..n {
        let val = E::at(n, re, im, i, k).size();
        if val > max_val {
            max_val = val;
            m = i;
        }
    }
    m
}

// Rows m and k change places in column j.
#[tactic(auto, unfolding(crate::specs::Elimination::swapped, words::specs::Loop::pick))]
pub fn swap<E: Entry>(n: usize, re: &mut [f64], im: &mut [f64], k: usize, m: usize, j: usize)
    requires matrix { IsMatrix E.imaginary n re.old im.old }
    requires k_lt_n { (k < n) × (m < n) × (j < n) }
    ensures { E.lent re.new im.new ≡ swapped E.kind n k m j (E.lent re.old im.old) }
{
    if m != k {
        let upper = E::at(n, re, im, k, j);
        let lower = E::at(n, re, im, m, j);
        upper.put(n, re, im, m, j);
        lower.put(n, re, im, k, j);
    }
}

// Column k, below row k, stores the negative multipliers.
fn scale<E: Entry>(n: usize, re: &mut [f64], im: &mut [f64], k: usize, t: E)
    requires matrix { IsMatrix E.imaginary n re.old im.old }
    requires k_lt_n { k < n }
    ensures { E.lent re.new im.new
        ≡ loop (scaled_at E.kind n k t) (k + 1) n (E.lent re.old im.old) }
{
    for i in k + 1..n {
        let x = E::at(n, re, im, i, k);
        x.multiplier(t).put(n, re, im, i, k);
    }
}

// From column k + 1 on, rows m and k change places.
pub fn swap_rows<E: Entry>(n: usize, re: &mut [f64], im: &mut [f64], k: usize, m: usize)
    requires matrix { IsMatrix E.imaginary n re.old im.old }
    requires k_lt_n { (k < n) × (m < n) }
    ensures { E.lent re.new im.new
        ≡ loop (swapped E.kind n k m) (k + 1) n (E.lent re.old im.old) }
{
    for j in k + 1..n {
        swap::<E>(n, re, im, k, m, j);
    }
}

// What pass k does to the matrix, once its pivot is found in row m.
#[tactic(auto, unfolding(crate::specs::Elimination::eliminated))]
fn eliminate<E: Update>(n: usize, re: &mut [f64], im: &mut [f64], k: usize, m: usize, pivot: E)
    requires matrix { IsMatrix E.imaginary n re.old im.old }
    requires k_lt_n { (k < n) × (m < n) }
    requires pivot_there { pivot ≡ E.kind.at (E.lent re.old im.old) n m k }
    ensures { E.lent re.new im.new ≡ eliminated E.kind n k m (E.lent re.old im.old) }
{
    swap::<E>(n, re, im, k, m, k);
    scale(n, re, im, k, pivot.reciprocal());
    E::update(n, re, im, k, m);
}

// Pass k. Where its pivot is zero, the row is noted all the same, and the matrix is left as it was.
fn pass<E: Update>(
    n: usize,
    re: &mut [f64],
    im: &mut [f64],
    ip: &mut [usize],
    k: usize,
) -> Result<(), DecompositionError>
    requires matrix { IsMatrix E.imaginary n re.old im.old }
    requires k_lt_n { (k < n) × (length ip.old ≡ n) }
    ensures { decomposition result (E.lent re.new im.new) ip.new
        ≡ answered E.kind n (passed E.kind n k (E.lent re.old im.old) ip.old) }
{
    let m = find_pivot::<E>(n, re, im, k);
    ip[k] = m;
    let pivot = E::at(n, re, im, m, k);
    if pivot.is_zero() {
        return Err(DecompositionError::Singular(k));
    }
    eliminate(n, re, im, k, m, pivot);
    Ok(())
}

// Every pass, and the test of the last diagonal entry.
fn passes<E: Update>(
    n: usize,
    re: &mut [f64],
    im: &mut [f64],
    ip: &mut [usize],
) -> Result<(), DecompositionError>
    requires matrix { IsMatrix E.imaginary n re.old im.old }
    requires le_n { (1 ≤ n) × (length ip.old ≡ n) }
    ensures { decomposition result (E.lent re.new im.new) ip.new
        ≡ answered E.kind n (last_tested E.kind n
        (loop (pass_at E.kind n) 0 (n - 1) (work (E.lent re.old im.old) ip.old nowhere))) }
{
    let last = n - 1;
    for k in 0..last {
        pass::<E>(n, re, im, ip, k)?;
    }
    if E::at(n, re, im, last, last).is_zero() {
        return Err(DecompositionError::Singular(last));
    }
    Ok(())
}

// The whole routine past its refusals.
pub fn decompose<E: Update>(
    n: usize,
    re: &mut [f64],
    im: &mut [f64],
    ip: &mut [usize],
) -> Result<(), DecompositionError>
    requires matrix { IsMatrix E.imaginary n re.old im.old }
    requires le_n { (1 ≤ n) × (length ip.old ≡ n) }
    ensures { decomposition result (E.lent re.new im.new) ip.new
        ≡ answered E.kind n (worked E.kind n (E.lent re.old im.old) ip.old) }
{
    if n == 1 {
        if E::at(n, re, im, 0, 0).is_zero() {
            return Err(DecompositionError::Singular(0));
        }
        ip[0] = 0;
        return Ok(());
    }
    passes::<E>(n, re, im, ip)
}

// The matrices of a pass: E1, and the real and imaginary part of E2 (radau.rs:377-388), in one
// pass over contiguous memory.
ghost use Rattle.std.specs.Prelude.{◌≡◌, ◌*◌, ◌<◌, length};
ghost use Rattle.words.specs.Loop.{loop};
ghost use Rattle.words.specs.Grid.{Square};
ghost use Rattle.solve_blocks.specs.Entries.{three};
ghost use Rattle.solve_blocks.specs.Matrices.{built_of};
ghost use Rattle.solve_blocks.specs.Reordered.{made_at, full_at, diagonal_at, identity_built};

use scalar::coefficients::{ALPH, BETA, U1};
use state::settings::Mass;

// Entry k of the three, where a, b and c are the mass matrix's entry times fac1, alphn and betan.
fn make(
    a: f64,
    b: f64,
    c: f64,
    jac: &[f64],
    k: usize,
    e1: &mut [f64],
    e2r: &mut [f64],
    e2i: &mut [f64],
)
    requires { (k < 1024)
        × (k < length jac.now)
        × (k < length e1.old)
        × (k < length e2r.old)
        × (k < length e2i.old) }
    ensures { three e1.new e2r.new e2i.new
        ≡ made_at a b c jac.now k (three e1.old e2r.old e2i.old) }
{
    let j = jac[k];
    e1[k] = a - j;
    e2r[k] = b - j;
    e2i[k] = c;
}

// Every entry as one beside the diagonal.
fn make_plain(
    a: f64,
    b: f64,
    c: f64,
    n: usize,
    jac: &[f64],
    e1: &mut [f64],
    e2r: &mut [f64],
    e2i: &mut [f64],
)
    requires { Square n jac.now × Square n e1.old × Square n e2r.old × Square n e2i.old }
    ensures { three e1.new e2r.new e2i.new
        ≡ loop (made_at a b c jac.now) 0 (n * n)
        (three e1.old e2r.old e2i.old) }
{
    let count = n * n;
    for k in 0..count {
        make(a, b, c, jac, k, e1, e2r, e2i);
    }
}

fn make_diagonal(
    a: f64,
    b: f64,
    c: f64,
    n: usize,
    jac: &[f64],
    e1: &mut [f64],
    e2r: &mut [f64],
    e2i: &mut [f64],
)
    requires { Square n jac.now × Square n e1.old × Square n e2r.old × Square n e2i.old }
    ensures { three e1.new e2r.new e2i.new
        ≡ loop (diagonal_at n a b c jac.now) 0 n
        (three e1.old e2r.old e2i.old) }
{
    for r in 0..n {
        make(a, b, c, jac, r * n + r, e1, e2r, e2i);
    }
}

// Under Identity a factor is multiplied by 0 and by 1 once, not in each entry.
fn build_identity(
    n: usize,
    jac: &[f64],
    fac1: f64,
    alphn: f64,
    betan: f64,
    e1: &mut [f64],
    e2r: &mut [f64],
    e2i: &mut [f64],
)
    requires { Square n jac.now × Square n e1.old × Square n e2r.old × Square n e2i.old }
    ensures { three e1.new e2r.new e2i.new
        ≡ identity_built n jac.now fac1 alphn betan
        (three e1.old e2r.old e2i.old) }
{
    make_plain(0.0 * fac1, 0.0 * alphn, 0.0 * betan, n, jac, e1, e2r, e2i);
    make_diagonal(1.0 * fac1, 1.0 * alphn, 1.0 * betan, n, jac, e1, e2r, e2i);
}

fn build_full(
    n: usize,
    mass: &[f64],
    jac: &[f64],
    fac1: f64,
    alphn: f64,
    betan: f64,
    e1: &mut [f64],
    e2r: &mut [f64],
    e2i: &mut [f64],
)
    requires { Square n mass.now
        × Square n jac.now
        × Square n e1.old
        × Square n e2r.old
        × Square n e2i.old }
    ensures { three e1.new e2r.new e2i.new
        ≡ loop (full_at mass.now jac.now fac1 alphn betan) 0 (n * n)
        (three e1.old e2r.old e2i.old) }
{
    let count = n * n;
    for k in 0..count {
        let m = mass[k];
        make(m * fac1, m * alphn, m * betan, jac, k, e1, e2r, e2i);
    }
}

pub fn built(
    mode: Mass,
    n: usize,
    mass: &[f64],
    jac: &[f64],
    h: f64,
    e1: &mut [f64],
    e2r: &mut [f64],
    e2i: &mut [f64],
)
    requires { Square n mass.now
        × Square n jac.now
        × Square n e1.old
        × Square n e2r.old
        × Square n e2i.old }
    ensures { three e1.new e2r.new e2i.new
        ≡ built_of mode n mass.now jac.now h
        (three e1.old e2r.old e2i.old) }
{
    let fac1 = U1 / h;
    let alphn = ALPH / h;
    let betan = BETA / h;
    match mode {
        Mass::Identity => build_identity(n, jac, fac1, alphn, betan, e1, e2r, e2i),
        Mass::Full => build_full(n, mass, jac, fac1, alphn, betan, e1, e2r, e2i),
    }
}

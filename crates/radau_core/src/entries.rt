// Entries that depend on a mode, and the sum of three products that `solve` is full of.
ghost use Rattle.std.specs.Prelude.{◌≡◌, ◌≤◌, ◌<◌, length};
ghost use Rattle.words.specs.Grid.{Square, at, put};
ghost use Rattle.solve_blocks.specs.Entries.{mass_at, rtol_at, atol_at, as_float, combined};
ghost use Rattle.solve_blocks.specs.Reordered.{all_finite};

use state::run::Tolerances;
use state::settings::Mass;

// Row r, column c of an n by n matrix.
pub fn entry(a: &[f64], n: usize, r: usize, c: usize) -> f64
    requires { (r < n) × (c < n) × Square n a.now }
    ensures { result ≡ at a.now n r c }
{
    a[r * n + c]
}

pub fn store(a: &mut [f64], n: usize, r: usize, c: usize, v: f64)
    requires { (r < n) × (c < n) × Square n a.old }
    ensures { a.new ≡ put a.old n r c v }
{
    a[r * n + c] = v;
}

pub fn mass_at(mode: Mass, mass: &[f64], n: usize, r: usize, c: usize) -> f64
    requires { (r < n) × (c < n) × Square n mass.now }
    ensures { result ≡ mass_at mode mass.now n r c }
{
    match mode {
        Mass::Identity => {
            if r == c {
                return 1.0;
            }
            0.0
        }
        Mass::Full => entry(mass, n, r, c),
    }
}

pub fn rtol_at(tolerances: Tolerances, rtol: &[f64], i: usize) -> f64
    requires { i < length rtol.now }
    ensures { result ≡ rtol_at tolerances rtol.now i }
{
    match tolerances {
        Tolerances::Scalars(relative, _) => relative,
        Tolerances::Lists => rtol[i],
    }
}

pub fn atol_at(tolerances: Tolerances, atol: &[f64], i: usize) -> f64
    requires { i < length atol.now }
    ensures { result ≡ atol_at tolerances atol.now i }
{
    match tolerances {
        Tolerances::Scalars(_, absolute) => absolute,
        Tolerances::Lists => atol[i],
    }
}

// A small count as a float.
pub fn as_float(n: usize) -> f64
    requires { n ≤ 32 }
    ensures { result ≡ as_float n }
{
    let m = n as u32;
    m as f64
}

pub fn combined(a: f64, x: f64, b: f64, y: f64, c: f64, z: f64) -> f64
    ensures { result ≡ combined a x b y c z }
{
    a * x + b * y + c * z
}

// Whether each is finite: any other is no zero when it is taken from itself.
pub fn all_finite(n: usize, values: &[f64]) -> bool
    requires { length values.now ≡ n }
    ensures { result ≡ all_finite n values.now }
{
    let mut all = true;
    for j in 0..n {
        all = all & (values[j] - values[j] == 0.0);
    }
    all
}

// The conversion of tolerances at opening (radau.rs:189-207).
ghost use Rattle.std.specs.Prelude.{◌≡◌, ◌≤◌, length};
ghost use Rattle.words.specs.Loop.{loop};
ghost use Rattle.opening.specs.Tolerances.{turn_at, list_turn_at, columns, scalar_turns};
ghost use Rattle.opening.specs.Tolerances.{converted, converted_of, newton_tol_of};

use scalar::{max, min, sqrt, two_thirds};
use state::parts::zero;
use state::run::Tolerances;
use state::settings::Rule;

// A relative and an absolute tolerance.
#[derive(Clone, Copy)]
pub struct Pair {
    pub rtol: f64,
    pub atol: f64,
}

// The run's tolerances, and rtol[0] after all turns.
#[derive(Clone, Copy)]
pub struct Conversion {
    pub tolerances: Tolerances,
    pub tolst: f64,
}

// One turn on one pair.
fn turn(p: Pair) -> Pair
    ensures { result ≡ turn_at 0 p }
{
    let quot = p.atol / p.rtol;
    let rtol = 0.1 * two_thirds(p.rtol);
    Pair {
        rtol,
        atol: rtol * quot,
    }
}

// So many turns on one pair.
fn turn_scalars(count: usize, p: Pair) -> Pair
    ensures { result ≡ loop turn_at 0 count p }
{
    let mut q = p;
    for _ in 0..count {
        q = turn(q);
    }
    q
}

// A turn on each entry of both lists.
fn turn_lists(n: usize, rtol: &mut [f64], atol: &mut [f64])
    requires { (length rtol.old ≡ n) × (length atol.old ≡ n) }
    ensures { columns rtol.new atol.new
        ≡ loop list_turn_at 0 n (columns rtol.old atol.old) }
{
    for i in 0..n {
        let p = turn(Pair {
            rtol: rtol[i],
            atol: atol[i],
        });
        rtol[i] = p.rtol;
        atol[i] = p.atol;
    }
}

// How often a scalar is converted.
fn scalar_turns(rule: Rule, n: usize) -> usize
    ensures { result ≡ scalar_turns rule n }
{
    match rule {
        Rule::Rust => n,
        Rule::Book => 1,
    }
}

// Converts the tolerances, lists where they stand; unused lists become +0.
pub fn convert(
    rule: Rule,
    n: usize,
    tolerances: Tolerances,
    rtol: &mut [f64],
    atol: &mut [f64],
) -> Conversion
    requires { (1 ≤ n) × (length rtol.old ≡ n) × (length atol.old ≡ n) }
    ensures { converted result rtol.new atol.new
        ≡ converted_of rule n tolerances rtol.old atol.old }
{
    match tolerances {
        Tolerances::Scalars(relative, absolute) => {
            let p = turn_scalars(
                scalar_turns(rule, n),
                Pair {
                    rtol: relative,
                    atol: absolute,
                },
            );
            zero(rtol);
            zero(atol);
            Conversion {
                tolerances: Tolerances::Scalars(p.rtol, p.atol),
                tolst: p.rtol,
            }
        }
        Tolerances::Lists => {
            turn_lists(n, rtol, atol);
            Conversion {
                tolerances: Tolerances::Lists,
                tolst: rtol[0],
            }
        }
    }
}

// The tolerance of the Newton iteration: as given, or from uround and the first rtol.
pub fn newton_tolerance(newton_tol: Option<f64>, uround: f64, tolst: f64) -> f64
    ensures { result ≡ newton_tol_of newton_tol uround tolst }
{
    match newton_tol {
        Some(v) => v,
        None => max(10.0 * uround / tolst, min(0.03, sqrt(tolst))),
    }
}

// The step that a report is about, for a host that holds the state of a run.
ghost use Rattle.std.specs.Prelude.{◌≡◌};
ghost use Rattle.export.specs.Held.{held_step};

use radau_core::pack::run_at;
use radau_core::places::{DOUBLES, WORDS};

// The step that the run holds: at a report what `elchepur_interpolate` and `elchepur_bounds` take as h.
#[unsafe(no_mangle)]
pub extern "C" fn elchepur_held_step(words: &[usize; WORDS], doubles: &[f64; DOUBLES]) -> f64
    ensures { result ≡ held_step words.now doubles.now }
{
    let run = run_at(words, doubles);
    run.held_step()
}

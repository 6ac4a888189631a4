// The notes of a run: which matrix had no pivot latest, and in which column; and the smallest and the largest stride.
ghost use Rattle.std.specs.Prelude.{◌≡◌};
ghost use Rattle.solve_blocks.specs.Setters.{in_notes, set_latest};
ghost use Rattle.solve_blocks.specs.Judge.{with_stride, strode};
ghost use Rattle.radau_core.specs.Choices.{singular_of};
ghost use Rattle.radau_core.specs.Places.{notes_at, run_at, Sized};

use crate::optional::{option_at, option_tag};
use crate::places::{COLUMN, DOUBLES, H, LARGEST, SINGULAR, SMALLEST, STRIDES, WORDS};
use scalar::{abs, max, min};
use state::numbers::{largest_stride, singular_column, singular_kind, smallest_stride};
use state::run::{Notes, Singular, Strides};

fn singular_at(kind: usize, column: usize) -> Option<Singular>
    ensures { result ≡ singular_of kind column }
{
    match kind {
        1 => Some(Singular::Real(column)),
        2 => Some(Singular::Complex(column)),
        _ => None,
    }
}

fn strides_at(words: &[usize; WORDS], doubles: &[f64; DOUBLES]) -> Option<Strides>
    ensures { result ≡ (notes_at words.now doubles.now).strides }
{
    option_at(
        words[STRIDES],
        Strides {
            smallest: doubles[SMALLEST],
            largest: doubles[LARGEST],
        },
    )
}

pub fn notes_at(words: &[usize; WORDS], doubles: &[f64; DOUBLES]) -> Notes
    ensures { result ≡ notes_at words.now doubles.now }
{
    Notes {
        singular: singular_at(words[SINGULAR], words[COLUMN]),
        strides: strides_at(words, doubles),
    }
}

// The latest singular decomposition is this one.
pub fn noted(words: &mut [usize; WORDS], doubles: &mut [f64; DOUBLES], singular: Option<Singular>)
    requires { Sized words.old doubles.old }
    ensures sized { Sized words.new doubles.new }
    ensures doubles_after { run_at words.new doubles.new
        ≡ in_notes (set_latest singular) (run_at words.old doubles.old) }
{
    words[SINGULAR] = singular_kind(singular);
    words[COLUMN] = singular_column(singular);
}

// One stride more; a NaN is passed over.
fn with_stride(stride: f64, strides: Option<Strides>) -> Option<Strides>
    ensures { result ≡ with_stride stride strides }
{
    match strides {
        None => {
            if stride != stride {
                return None;
            }
            Some(Strides {
                smallest: stride,
                largest: stride,
            })
        }
        Some(before) => Some(Strides {
            smallest: min(before.smallest, stride),
            largest: max(before.largest, stride),
        }),
    }
}

// The attempt is accepted with the h that stands.
pub fn strode(words: &mut [usize; WORDS], doubles: &mut [f64; DOUBLES])
    requires { Sized words.old doubles.old }
    ensures sized { Sized words.new doubles.new }
    ensures doubles_after { run_at words.new doubles.new
        ≡ strode (run_at words.old doubles.old) }
{
    let strides = with_stride(abs(doubles[H]), strides_at(words, doubles));
    words[STRIDES] = option_tag(strides);
    doubles[SMALLEST] = smallest_stride(strides);
    doubles[LARGEST] = largest_stride(strides);
}

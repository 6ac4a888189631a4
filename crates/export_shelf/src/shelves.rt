// A shelf is emptied, a step is put on it, and it is asked at a point.
ghost use Rattle.std.specs.Prelude.{◌≡◌};
ghost use Rattle.shelf.specs.Answers.{error_number, placing_number, asking_number};
ghost use Rattle.shelf.specs.Ask.{ask_of};
ghost use Rattle.shelf.specs.Put.{put_of};
ghost use Rattle.shelf.specs.Shelf.{empty_shelf};
ghost use Rattle.export_shelf.specs.Border.{shelf_from, shelf_words, words_after};

use shelf::answers::{Shelf, ShelfError};

fn shelf_from(words: &[usize; 2]) -> Shelf
    ensures { result ≡ shelf_from words.now }
{
    Shelf {
        steps: words[0],
        place: words[1],
    }
}

fn error_number(error: ShelfError) -> u64
    ensures { result ≡ error_number error }
{
    match error {
        ShelfError::Length => 2,
        ShelfError::State => 13,
        ShelfError::Point => 25,
    }
}

// Opens a shelf, or empties it: no step is kept.
#[unsafe(no_mangle)]
pub extern "C" fn elchepur_empty_shelf(shelf: &mut [usize; 2])
    ensures { shelf.new ≡ shelf_words empty_shelf }
{
    let empty = shelf::empty();
    *shelf = [empty.steps, empty.place];
}

// Keeps the step from xold by h with its coefficients, four for each amount. Answers 0, or refuses with 2, then 13, and
// writes nothing then.
#[tactic(auto, unfolding(crate::specs::Border::words_after))]
#[unsafe(no_mangle)]
pub extern "C" fn elchepur_put_on_shelf(
    shelf: &mut [usize; 2],
    cont: &[f64],
    xold: f64,
    h: f64,
    coefficients: &mut [f64],
    ends: &mut [f64],
) -> u64
    ensures { (result ≡ placing_number (put_of (shelf_from shelf.old) cont.now xold h
        coefficients.old ends.old).answer)
        × (shelf.new ≡ words_after (put_of (shelf_from shelf.old) cont.now xold h
        coefficients.old ends.old).answer shelf.old)
        × (coefficients.new ≡ (put_of (shelf_from shelf.old) cont.now xold h
        coefficients.old ends.old).coefficients)
        × (ends.new ≡ (put_of (shelf_from shelf.old) cont.now xold h
        coefficients.old ends.old).ends) }
{
    match shelf::put(shelf_from(shelf), cont, xold, h, coefficients, ends) {
        Ok(after) => {
            *shelf = [after.steps, after.place];
            0
        }
        Err(error) => error_number(error),
    }
}

// Writes to the target the amounts at x from the newest kept step that holds it. Answers 0, or refuses with 2, then 13,
// then 25, and writes nothing then.
#[unsafe(no_mangle)]
pub extern "C" fn elchepur_ask_shelf(
    shelf: &[usize; 2],
    x: f64,
    target: &mut [f64],
    coefficients: &[f64],
    ends: &[f64],
) -> u64
    ensures { (result ≡ asking_number (ask_of (shelf_from shelf.now) x target.old
        coefficients.now ends.now).answer)
        × (target.new ≡ (ask_of (shelf_from shelf.now) x target.old
        coefficients.now ends.now).target) }
{
    match shelf::ask(shelf_from(shelf), x, target, coefficients, ends) {
        Ok(()) => 0,
        Err(error) => error_number(error),
    }
}

// The amounts at a past point.
ghost use Rattle.std.specs.Prelude.{◌≡◌};
ghost use Rattle.shelf.specs.Answers.{asked};
ghost use Rattle.shelf.specs.Ask.{ask_of};

use crate::answers::{Shelf, ShelfError};
use crate::finding::find;
use crate::fit::{room_fits, shelf_fits};
use dense::interpolate;

// Writes to the target the amounts at x, as `interpolate` gives them for the newest kept step whose bounds hold x. The
// target's length is the number of amounts.
pub fn ask(
    shelf: Shelf,
    x: f64,
    target: &mut [f64],
    coefficients: &[f64],
    ends: &[f64],
) -> Result<(), ShelfError>
    ensures { asked result target.new
        ≡ ask_of shelf x target.old coefficients.now ends.now }
{
    let n = target.len();
    if !room_fits(n, coefficients.len(), ends.len()) {
        return Err(ShelfError::Length);
    }
    if !shelf_fits(shelf) {
        return Err(ShelfError::State);
    }
    let Some(place) = find(x, ends, shelf.place, shelf.steps) else {
        return Err(ShelfError::Point);
    };
    let start = place * (4 * n);
    let part = &coefficients[start..start + 4 * n];
    interpolate(x, target, part, ends[2 * place], ends[2 * place + 1]).unwrap();
    Ok(())
}

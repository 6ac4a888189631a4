// A step is put on the shelf, and a shelf is emptied.
ghost use Rattle.std.specs.Prelude.{◌+◌, ◌≤◌, ◌≡◌, length};
ghost use Rattle.shelf.specs.Shelf.{over, empty_shelf};
ghost use Rattle.shelf.specs.Answers.{placed};
ghost use Rattle.shelf.specs.Put.{put_of};

use crate::answers::{Shelf, ShelfError};
use crate::fit::{room_fits, shelf_fits};
use crate::places::{place_after, steps_after};

// A shelf without steps: how it begins, and what a modified point leaves of it.
pub fn empty() -> Shelf
    ensures { result ≡ empty_shelf }
{
    Shelf { steps: 0, place: 0 }
}

// Puts the coefficients into the room from `start` on, entry by entry: the library's copy of one lent part into another
// is a call of C's `memmove`, which an archive would need.
fn copy(cont: &[f64], start: usize, coefficients: &mut [f64])
    requires { start + length cont.now ≤ length coefficients.old }
    ensures { coefficients.new ≡ over start cont.now coefficients.old }
{
    for i in 0..cont.len() {
        coefficients[start + i] = cont[i];
    }
}

// Keeps the step from xold by h with its coefficients, in the place of the oldest where all 48 are taken. The parts
// have 48 times the coefficients' length, a multiple of 4, and 96.
pub fn put(
    shelf: Shelf,
    cont: &[f64],
    xold: f64,
    h: f64,
    coefficients: &mut [f64],
    ends: &mut [f64],
) -> Result<Shelf, ShelfError>
    ensures { placed result coefficients.new ends.new
        ≡ put_of shelf cont.now xold h coefficients.old ends.old }
{
    if cont.len() % 4 != 0 {
        return Err(ShelfError::Length);
    }
    if !room_fits(cont.len() / 4, coefficients.len(), ends.len()) {
        return Err(ShelfError::Length);
    }
    if !shelf_fits(shelf) {
        return Err(ShelfError::State);
    }
    let place = shelf.place;
    copy(cont, place * cont.len(), coefficients);
    let end = 2 * place;
    ends[end..end + 2].copy_from_slice(&[xold, h]);
    Ok(Shelf {
        steps: steps_after(shelf.steps),
        place: place_after(place),
    })
}

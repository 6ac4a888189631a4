// The tests before the work: the lengths of the two parts, and the shelf's own state.
ghost use Rattle.std.specs.Prelude.{◌≡◌};
ghost use Rattle.shelf.specs.Refusals.{room_fits, shelf_fits};

use crate::answers::Shelf;
use crate::places::{LAST, MOST};

// How many doubles 48 steps have for one amount: four coefficients each.
const AN_AMOUNT: usize = 192;

// How many doubles the ends of 48 steps are.
const ENDS: usize = 96;

// Whether the two parts are as long as 48 steps of n amounts are. No product is formed, which might not fit.
#[tactic(auto, unfolding(crate::specs::Refusals::room_fits))]
pub fn room_fits(n: usize, coefficients: usize, ends: usize) -> bool
    ensures { result ≡ room_fits n coefficients ends }
{
    coefficients / AN_AMOUNT == n && coefficients % AN_AMOUNT == 0 && ends == ENDS
}

#[tactic(auto, unfolding(crate::specs::Refusals::shelf_fits))]
pub fn shelf_fits(shelf: Shelf) -> bool
    ensures { result ≡ shelf_fits shelf }
{
    shelf.steps <= MOST && shelf.place <= LAST
}

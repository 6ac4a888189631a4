// The 48 places of the shelf stand in a ring.
ghost use Rattle.std.specs.Prelude.{◌≤◌, ◌≡◌};
ghost use Rattle.shelf.specs.Shelf.{most_kept, last_place, place_before, place_after, steps_after};

pub const LAST: usize = 47;

pub const MOST: usize = 48;

#[tactic(auto, unfolding(crate::specs::Shelf::place_before))]
pub fn place_before(place: usize) -> usize
    ensures { result ≡ place_before place }
{
    place.checked_sub(1).unwrap_or(LAST)
}

#[tactic(auto, unfolding(crate::specs::Shelf::place_after, words::specs::Loop::pick))]
pub fn place_after(place: usize) -> usize
    requires { place ≤ last_place }
    ensures { result ≡ place_after place }
{
    if place == LAST { 0 } else { place + 1 }
}

// One more step, and never over 48.
#[tactic(auto, unfolding(crate::specs::Shelf::steps_after, words::specs::Loop::pick))]
pub fn steps_after(steps: usize) -> usize
    requires { steps ≤ most_kept }
    ensures { result ≡ steps_after steps }
{
    MOST.min(steps + 1)
}

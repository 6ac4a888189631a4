// The shelf's own state, and why its functions refuse. specs/Answers.antt gives the number of each case.

// How many steps are kept, and the place, of 48, that the next one takes.
#[derive(Clone, Copy)]
pub struct Shelf {
    pub steps: usize,
    pub place: usize,
}

// Why a step isn't put on the shelf, or a point isn't answered. Nothing was written then.
#[derive(Clone, Copy)]
pub enum ShelfError {
    // A part has a wrong length.
    Length,
    // The shelf has over 48 steps, or a place above 47.
    State,
    // No kept step holds the point that was asked for.
    Point,
}

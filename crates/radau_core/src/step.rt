// Where `solve` stands between two blocks: those of crates/solve_blocks/src/step.rt without the run, which stands in
// its places.
use state::talk::{Place, Request};

#[derive(Clone, Copy)]
pub struct Call {
    pub request: Request,
    pub place: Place,
}

#[derive(Clone, Copy)]
pub enum Step {
    Asked(Call),
    Main,
    Matrices,
    Attempt,
}

#[derive(Clone, Copy)]
pub enum Round {
    Newton,
    Estimate,
    Over(Step),
}

#[derive(Clone, Copy)]
pub enum Heard {
    Asked(Call),
    Reported,
}

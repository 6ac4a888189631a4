// Where `solve` stands between two blocks: at a call of the host, or at one of its labels (radau.rs:369-796).
use state::run::Run;
use state::talk::Call;

#[derive(Clone, Copy)]
pub enum Step {
    Asked(Call),
    // The top of 'main.
    Main(Run),
    // Past the Jacobian.
    Matrices(Run),
    // Past the matrices.
    Attempt(Run),
}

// Past a round of the Newton iteration.
#[derive(Clone, Copy)]
pub enum Round {
    // The top of 'newton.
    Newton(Run),
    // Past 'newton.
    Estimate(Run),
    // The attempt is over.
    Over(Step),
}

// Past a report.
#[derive(Clone, Copy)]
pub enum Heard {
    Asked(Call),
    Reported(Run),
}

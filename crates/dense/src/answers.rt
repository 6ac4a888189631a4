// What the two functions answer. specs/Answers.antt gives document 01's number for a refusal.

// Why an interpolation is refused.
#[derive(Clone, Copy)]
pub enum InterpolationError {
    // The target has less room than there are amounts; nothing was written.
    ShortTarget,
}

// The two ends of a step.
#[derive(Clone, Copy)]
pub struct Bounds {
    pub left: f64,
    pub right: f64,
}

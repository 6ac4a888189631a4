// Why the derivative of a model is refused. specs/Answers.antt gives document 01's number for each case. Nothing was
// written then.

#[derive(Clone, Copy)]
pub enum DerivativeError {
    // The target has another length than the amounts, or the reactions want more rates or species' numbers than there
    // are.
    Length,
    // A reaction names a species above the number of amounts.
    Species,
}

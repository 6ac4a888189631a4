// Why the routines refuse. specs/Answers.antt gives document 01's number for each case.

// Why a decomposition is not done. Where it is, the matrix holds the factors, and the first n - 1 pivots (for n = 1 the
// only one) the rows exchanged.
#[derive(Clone, Copy)]
pub enum DecompositionError {
    // n is not 1..32; nothing was written.
    Order,
    // A slice has another length than n * n or n; nothing was written.
    Length,
    // The pivot of this column, counted from 0, is zero; matrix and pivots are left as far as the elimination came.
    Singular(usize),
}

// Why nothing is solved. Where it is, the right side now holds the solution.
#[derive(Clone, Copy)]
pub enum SolveError {
    // n is not 1..32; nothing was written.
    Order,
    // A slice has another length than n * n or n; nothing was written.
    Length,
    // One of the first n - 1 pivots is n or more; nothing was written.
    Pivot,
}

// The places of a run: 42 whole numbers in one array and 31 doubles in another, each at a place with a name, changed
// where they stand. specs/Places.antt says which run two such arrays hold.
pub const WORDS: usize = 42;

pub const DOUBLES: usize = 31;

// ---- whole numbers that an advance changes
pub const STAGE: usize = 0;

// The column of a stage `Column`, the status of a stage `Ended`.
pub const PART: usize = 1;

pub const ODE: usize = 2;

pub const JAC: usize = 3;

pub const LU: usize = 4;

pub const TOTAL: usize = 5;

pub const ACCEPTED: usize = 6;

pub const REJECTED: usize = 7;

pub const FIRST: usize = 8;

pub const LAST: usize = 9;

pub const REJECT: usize = 10;

pub const CALL_JAC: usize = 11;

pub const CALL_DECOMP: usize = 12;

pub const SINGULAR_COUNT: usize = 13;

pub const NEWT_ITER: usize = 14;

// Whether XOUT was given.
pub const MARKED: usize = 15;

// ---- whole numbers that stay as the opening left them
pub const N: usize = 16;

pub const NIND1: usize = 17;

pub const NIND2: usize = 18;

pub const NIND3: usize = 19;

// Whether both tolerances are lists; else they are RTOL and ATOL.
pub const LISTS: usize = 20;

pub const MAX_STEPS: usize = 21;

pub const NEWTON_MAXITER: usize = 22;

pub const PREDICTIVE: usize = 23;

pub const MASS: usize = 24;

pub const SOURCE: usize = 25;

pub const DENSE_OUTPUT: usize = 26;

pub const RULE: usize = 27;

// ---- settings that the opening has worked up: whether each was given, and the number as given
pub const HAS_MAX_STEP: usize = 28;

pub const HAS_MIN_STEP: usize = 29;

pub const HAS_NEWTON_TOL: usize = 30;

pub const HAS_FIRST_STEP: usize = 31;

pub const HAS_NIND1: usize = 32;

pub const GIVEN_NIND1: usize = 33;

pub const HAS_NIND2: usize = 34;

pub const GIVEN_NIND2: usize = 35;

pub const HAS_NIND3: usize = 36;

pub const GIVEN_NIND3: usize = 37;

// ---- one more that an advance changes: the Jacobian in hand was made at the present point
pub const MADE_HERE: usize = 38;

// ---- the notes, which no decision reads: the matrix of the latest singular decomposition (0 there was none, 1 E1,
// 2 E2), and its column
pub const SINGULAR: usize = 39;

pub const COLUMN: usize = 40;

// Whether there are strides: SMALLEST and LARGEST, which refusal 13 tests.
pub const STRIDES: usize = 41;

// ---- doubles that an advance changes
pub const X: usize = 0;

pub const XOLD: usize = 1;

pub const XPH: usize = 2;

pub const H: usize = 3;

pub const HOLD: usize = 4;

pub const HNEW: usize = 5;

pub const HHFAC: usize = 6;

pub const H_ACC: usize = 7;

pub const ERR_ACC: usize = 8;

pub const FACCON: usize = 9;

pub const THETA: usize = 10;

pub const DYNOLD: usize = 11;

pub const THQOLD: usize = 12;

pub const XOUT: usize = 13;

// ---- doubles that stay
pub const NEWTON_TOL: usize = 14;

pub const XEND: usize = 15;

pub const POSNEG: usize = 16;

pub const HMAX: usize = 17;

pub const HMIN: usize = 18;

pub const RTOL: usize = 19;

pub const ATOL: usize = 20;

pub const UROUND: usize = 21;

pub const SAFETY_FACTOR: usize = 22;

pub const SCALE_MIN: usize = 23;

pub const SCALE_MAX: usize = 24;

// ---- settings that the opening has worked up, as given
pub const GIVEN_MAX_STEP: usize = 25;

pub const GIVEN_MIN_STEP: usize = 26;

pub const GIVEN_NEWTON_TOL: usize = 27;

pub const GIVEN_FIRST_STEP: usize = 28;

// ---- the notes
pub const SMALLEST: usize = 29;

pub const LARGEST: usize = 30;

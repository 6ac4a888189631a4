// What a run and its host say to each other.
use crate::run::{Counts, Run, Singular, Status};

#[derive(Clone, Copy)]
pub enum Request {
    // The derivative at x; the place beside it says where the amounts stand and which part to fill.
    Derivative(f64),
    // The Jacobian at x and y, into the part `jac`.
    Jacobian(f64),
    // A point was reached: the old x, the new one, and whether coefficients are offered in `cont`.
    Report(f64, f64, bool),
    Ended(Status),
}

// The parts of a derivative request: where the amounts stand, and which part to fill.
#[derive(Clone, Copy)]
pub enum Place {
    // The request asks for no derivative.
    Nowhere,
    YToF0,
    // The amounts are the first n entries of `cont`, here and in the next three.
    ContToZ1,
    ContToZ2,
    ContToZ3,
    ContToF1,
    YToFOrigin,
    YPerturbedToFPerturbed,
}

#[derive(Clone, Copy)]
pub enum Reply {
    // A derivative or Jacobian was filled in.
    Filled,
    // To a report: go on; break off; the host wrote new amounts into y, and this is the new x; offer
    // coefficients from this x on.
    Continue,
    Interrupt,
    Modified(f64),
    Mark(f64),
}

// A float that may be refused, in the order in which they are tested.
#[derive(Clone, Copy)]
pub enum Value {
    X0,
    Xend,
    Amount(usize),
    MassEntry(usize),
    Rtol(usize),
    Atol(usize),
    Uround,
    SafetyFactor,
    ScaleMin,
    ScaleMax,
    MaxStep,
    MinStep,
    NewtonTol,
    FirstStep,
}

// Why a call is refused; specs/Numbers.antt gives document 01's number for each.
#[derive(Clone, Copy)]
pub enum Refusal {
    Order,
    Length,
    NotFinite(Value),
    MaxSteps,
    Uround,
    SafetyFactor,
    Scales,
    NewtonMaxiter,
    // An rtol that is not above 0, or an atol below 0.
    Tolerance(Value),
    Partition,
    FirstStep,
    MaxStep,
    MinStep,
    Unfit,
    HasEnded,
    WrongReply,
}

// A call of the host: the run at the stage that waits for the reply, what is asked, and where.
#[derive(Clone, Copy)]
pub struct Call {
    pub run: Run,
    pub request: Request,
    pub place: Place,
}

// A refused advance hands the run back as it came.
#[derive(Clone, Copy)]
pub struct Refused {
    pub run: Run,
    pub refusal: Refusal,
}

// What a result tells of a singular decomposition: only one with the status 5 does.
#[derive(Clone, Copy)]
pub enum Blame {
    // The status is another.
    Untold,
    // The latest of the run, or that there was none.
    Latest(Option<Singular>),
}

// What `solve` returns (methods/mod.rs, IntegrationResult), with the point reached, the blame and the strides.
#[derive(Clone, Copy)]
pub struct IntegrationResult {
    pub h: f64,
    pub x: f64,
    pub status: Status,
    pub counts: Counts,
    pub blame: Blame,
    // Of the strides of the accepted attempts; both are +0 where there was none.
    pub smallest: f64,
    pub largest: f64,
}

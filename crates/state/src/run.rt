// The state of a run. It goes in by value and comes back by value; vectors, matrices and pivots lie in lent memory.
ghost use Rattle.std.specs.Prelude.{◌≡◌};
ghost use Rattle.state.specs.Result.{blame_of, result_of};

use crate::numbers::{largest_stride, smallest_stride};
use crate::settings::Settings;
use crate::talk::{Blame, IntegrationResult};

// How a run ended (status.rs); the Rust's other two statuses never come.
#[derive(Clone, Copy)]
pub enum Status {
    Success,
    UserInterrupt,
    NeedLargerNMax,
    StepSizeTooSmall,
    SingularMatrix,
}

// The request that is open, one stage for each.
#[derive(Clone, Copy)]
pub enum Stage {
    FirstDerivative,
    FirstReport,
    // The derivative after a first report that modified the point.
    FirstDerivativeAgain,
    // The Jacobian that the host makes.
    Jacobian,
    // A derivative for the difference Jacobian: 0 at the point itself, c from 1 to n with amount c moved.
    Column(usize),
    // The three stages of a Newton round.
    Newton1,
    Newton2,
    Newton3,
    // The derivative that refines the first error estimate.
    Refinement,
    // The derivative at an accepted point.
    Accepted,
    Report,
    // The derivative after a report that modified the point.
    DerivativeAgain,
    Ended(Status),
}

// Both tolerances are scalars, converted at opening, or lists in lent memory.
#[derive(Clone, Copy)]
pub enum Tolerances {
    Scalars(f64, f64),
    Lists,
}

// n amounts, of which the first nind1 have index 1, the next nind2 index 2 and the last nind3 index 3.
#[derive(Clone, Copy)]
pub struct Shape {
    pub n: usize,
    pub nind1: usize,
    pub nind2: usize,
    pub nind3: usize,
}

// What opening fixes for the whole run.
#[derive(Clone, Copy)]
pub struct Fixed {
    pub tolerances: Tolerances,
    pub newton_tol: f64,
    pub xend: f64,
    pub posneg: f64,
    pub hmax: f64,
    pub hmin: f64,
}

#[derive(Clone, Copy)]
pub struct Counts {
    pub ode: usize,
    pub jac: usize,
    pub lu: usize,
    pub total: usize,
    pub accepted: usize,
    pub rejected: usize,
}

// The flags and counters of `solve`, apart from its floats: what an account of a run leans on.
#[derive(Clone, Copy)]
pub struct Control {
    pub first: bool,
    pub last: bool,
    pub reject: bool,
    pub call_jac: bool,
    pub call_decomp: bool,
    pub singular_count: usize,
    pub newt_iter: usize,
    // The Jacobian in hand was made at the present point.
    pub made_here: bool,
}

// The floats of `solve` that live from one request to the next.
#[derive(Clone, Copy)]
pub struct Numbers {
    pub x: f64,
    pub xold: f64,
    pub xph: f64,
    pub h: f64,
    pub hold: f64,
    pub hnew: f64,
    pub hhfac: f64,
    pub h_acc: f64,
    pub err_acc: f64,
    pub faccon: f64,
    pub theta: f64,
    pub dynold: f64,
    pub thqold: f64,
    pub xout: Option<f64>,
}

// A decomposition that found no pivot: of which matrix, and in which column, counted from 0.
#[derive(Clone, Copy)]
pub enum Singular {
    // E1.
    Real(usize),
    // E2.
    Complex(usize),
}

// The smallest and the largest stride of a run: |h| of each accepted attempt, with the h held when it was accepted. A
// NaN is passed over.
#[derive(Clone, Copy)]
pub struct Strides {
    pub smallest: f64,
    pub largest: f64,
}

// What a run keeps for its result alone: no decision reads it but refusal 13's test of the strides.
#[derive(Clone, Copy)]
pub struct Notes {
    // The latest of the whole run, whatever was accepted since.
    pub singular: Option<Singular>,
    // None where nothing was accepted, or nothing but NaN.
    pub strides: Option<Strides>,
}

#[derive(Clone, Copy)]
pub struct Run {
    // As given: refusal 13 tests them again.
    pub settings: Settings,
    pub shape: Shape,
    pub fixed: Fixed,
    pub counts: Counts,
    pub control: Control,
    pub numbers: Numbers,
    pub stage: Stage,
    pub notes: Notes,
}

// What a result with this status tells of the latest singular decomposition.
pub fn blamed(status: Status, notes: Notes) -> Blame
    ensures { result ≡ blame_of status notes }
{
    match status {
        Status::SingularMatrix => Blame::Latest(notes.singular),
        _ => Blame::Untold,
    }
}

impl Run {
    // h, the point reached, the status, the counts, the blame and the strides of an ended run; of any other run
    // nothing, so that no broken-off run passes for a result.
    pub fn result(self) -> Option<IntegrationResult>
        ensures { result ≡ result_of self }
    {
        let Stage::Ended(status) = self.stage else {
            return None;
        };
        let notes = self.notes;
        Some(IntegrationResult {
            h: self.numbers.h,
            x: self.numbers.x,
            status,
            counts: self.counts,
            blame: blamed(status, notes),
            smallest: smallest_stride(notes.strides),
            largest: largest_stride(notes.strides),
        })
    }

    // At a report, what `interpolate` and `bounds` take as h (radau.rs:724). Under the Rust rule it need not be the
    // distance between the report's two points.
    pub fn held_step(self) -> f64
        ensures { result ≡ self.numbers.h }
    {
        self.numbers.h
    }
}

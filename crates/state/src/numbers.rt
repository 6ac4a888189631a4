// Document 01's numbers of a status and of a refusal, and 02's of a singular decomposition and of the strides.
ghost use Rattle.std.specs.Prelude.{◌≡◌};
ghost use Rattle.state.specs.Numbers.{refusal_number, status_number};
ghost use Rattle.state.specs.Numbers.{singular_kind, singular_column, blame_kind, blame_column};
ghost use Rattle.state.specs.Numbers.{smallest_stride, largest_stride};

use crate::run::{Singular, Status, Strides};
use crate::talk::{Blame, Refusal};

pub fn status_number(status: Status) -> u64
    ensures { result ≡ status_number status }
{
    match status {
        Status::Success => 0,
        Status::UserInterrupt => 1,
        Status::NeedLargerNMax => 2,
        Status::StepSizeTooSmall => 3,
        Status::SingularMatrix => 5,
    }
}

// Which matrix was singular: 0 none, 1 the real one, 2 the complex one.
pub fn singular_kind(singular: Option<Singular>) -> usize
    ensures { result ≡ singular_kind singular }
{
    match singular {
        None => 0,
        Some(Singular::Real(_)) => 1,
        Some(Singular::Complex(_)) => 2,
    }
}

// Its column, and 0 where none was.
pub fn singular_column(singular: Option<Singular>) -> usize
    ensures { result ≡ singular_column singular }
{
    match singular {
        None => 0,
        Some(Singular::Real(k) | Singular::Complex(k)) => k,
    }
}

// The same of what a result tells, and 0 where it tells nothing.
pub fn blame_kind(blame: Blame) -> usize
    ensures { result ≡ blame_kind blame }
{
    match blame {
        Blame::Untold => 0,
        Blame::Latest(singular) => singular_kind(singular),
    }
}

pub fn blame_column(blame: Blame) -> usize
    ensures { result ≡ blame_column blame }
{
    match blame {
        Blame::Untold => 0,
        Blame::Latest(singular) => singular_column(singular),
    }
}

// The smallest stride, and +0 where there is none.
pub fn smallest_stride(strides: Option<Strides>) -> f64
    ensures { result ≡ smallest_stride strides }
{
    match strides {
        None => 0.0,
        Some(between) => between.smallest,
    }
}

// The largest.
pub fn largest_stride(strides: Option<Strides>) -> f64
    ensures { result ≡ largest_stride strides }
{
    match strides {
        None => 0.0,
        Some(between) => between.largest,
    }
}

pub fn refusal_number(refusal: Refusal) -> u64
    ensures { result ≡ refusal_number refusal }
{
    match refusal {
        Refusal::Order => 1,
        Refusal::Length => 2,
        Refusal::NotFinite(_) => 3,
        Refusal::MaxSteps => 4,
        Refusal::Uround => 5,
        Refusal::SafetyFactor => 6,
        Refusal::Scales => 7,
        Refusal::NewtonMaxiter => 8,
        Refusal::Tolerance(_) => 9,
        Refusal::Partition => 10,
        Refusal::FirstStep => 11,
        Refusal::MaxStep => 12,
        Refusal::MinStep => 12,
        Refusal::Unfit => 13,
        Refusal::HasEnded => 14,
        Refusal::WrongReply => 15,
    }
}

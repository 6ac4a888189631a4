// The stage of a run stands in two words: which it is, and the number that it holds.
ghost use Rattle.std.specs.Prelude.{◌≡◌};
ghost use Rattle.solve_blocks.specs.Setters.{at_stage};
ghost use Rattle.solve_blocks.specs.Matrices.{ended_of};
ghost use Rattle.radau_core.specs.Choices.{status_of, stage_tag, stage_part};
ghost use Rattle.radau_core.specs.Places.{stage_at, run_at, Sized, call_at};

use crate::places::{DOUBLES, PART, STAGE, WORDS};
use crate::step::Call;
use state::run::{Stage, Status};
use state::status_number;
use state::talk::{Place, Request};

// The status with a number.
pub fn status_at(word: usize) -> Status
    ensures { result ≡ status_of word }
{
    match word {
        1 => Status::UserInterrupt,
        2 => Status::NeedLargerNMax,
        3 => Status::StepSizeTooSmall,
        5 => Status::SingularMatrix,
        _ => Status::Success,
    }
}

pub fn stage_tag(stage: Stage) -> usize
    ensures { result ≡ stage_tag stage }
{
    match stage {
        Stage::FirstDerivative => 0,
        Stage::FirstReport => 1,
        Stage::FirstDerivativeAgain => 2,
        Stage::Jacobian => 3,
        Stage::Column(_) => 4,
        Stage::Newton1 => 5,
        Stage::Newton2 => 6,
        Stage::Newton3 => 7,
        Stage::Refinement => 8,
        Stage::Accepted => 9,
        Stage::Report => 10,
        Stage::DerivativeAgain => 11,
        Stage::Ended(_) => 12,
    }
}

pub fn stage_part(stage: Stage) -> usize
    ensures { result ≡ stage_part stage }
{
    match stage {
        Stage::FirstDerivative => 0,
        Stage::FirstReport => 0,
        Stage::FirstDerivativeAgain => 0,
        Stage::Jacobian => 0,
        Stage::Column(c) => c,
        Stage::Newton1 => 0,
        Stage::Newton2 => 0,
        Stage::Newton3 => 0,
        Stage::Refinement => 0,
        Stage::Accepted => 0,
        Stage::Report => 0,
        Stage::DerivativeAgain => 0,
        Stage::Ended(status) => status_number(status) as usize,
    }
}

pub fn stage_at(words: &[usize; WORDS]) -> Stage
    ensures { result ≡ stage_at words.now }
{
    let tag = words[STAGE];
    match tag {
        1 => Stage::FirstReport,
        2 => Stage::FirstDerivativeAgain,
        3 => Stage::Jacobian,
        4 => Stage::Column(words[PART]),
        5 => Stage::Newton1,
        6 => Stage::Newton2,
        7 => Stage::Newton3,
        8 => Stage::Refinement,
        9 => Stage::Accepted,
        10 => Stage::Report,
        11 => Stage::DerivativeAgain,
        12 => Stage::Ended(status_at(words[PART])),
        _ => Stage::FirstDerivative,
    }
}

// The run is at another stage.
pub fn at_stage(words: &mut [usize; WORDS], doubles: &mut [f64; DOUBLES], stage: Stage)
    requires { Sized words.old doubles.old }
    ensures sized { Sized words.new doubles.new }
    ensures doubles_after { run_at words.new doubles.new
        ≡ at_stage stage (run_at words.old doubles.old) }
{
    words[STAGE] = stage_tag(stage);
    words[PART] = stage_part(stage);
}

pub fn ended(words: &mut [usize; WORDS], doubles: &mut [f64; DOUBLES], status: Status) -> Call
    requires { Sized words.old doubles.old }
    ensures sized { Sized words.new doubles.new }
    ensures doubles_after { call_at result (run_at words.new doubles.new)
        ≡ ended_of status (run_at words.old doubles.old) }
{
    at_stage(words, doubles, Stage::Ended(status));
    Call {
        request: Request::Ended(status),
        place: Place::Nowhere,
    }
}

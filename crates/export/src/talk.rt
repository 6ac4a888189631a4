// What a run and its host say to each other, as numbers.
ghost use Rattle.std.specs.Prelude.{◌≡◌};
ghost use Rattle.opening.specs.Admission.{asking_at};
ghost use Rattle.radau_core.specs.Places.{run_at};
ghost use Rattle.export.specs.Talk.{kind_number, place_number, request_flag, told_of, at_of, reply_of};
ghost use Rattle.export.specs.Talk.{crossed, asked_of, of_opened, ended, end_numbers, of_result};

use crate::choices::flag_word;
use opening::admission::asking_at;
use radau_core::pack::{doubles_of, run_at, words_of};
use radau_core::places::{DOUBLES, WORDS};
use radau_core::step::Call;
use state::run::Stage;
use state::talk::{self, IntegrationResult, Place, Refusal, Reply, Request};
use state::{blame_column, blame_kind, refusal_number, status_number};

fn kind_number(request: Request) -> u64
    ensures { result ≡ kind_number request }
{
    match request {
        Request::Derivative(_) => 1,
        Request::Jacobian(_) => 2,
        Request::Report(_, _, _) => 3,
        Request::Ended(_) => 4,
    }
}

fn place_number(place: Place) -> u64
    ensures { result ≡ place_number place }
{
    match place {
        Place::Nowhere => 0,
        Place::YToF0 => 1,
        Place::ContToZ1 => 2,
        Place::ContToZ2 => 3,
        Place::ContToZ3 => 4,
        Place::ContToF1 => 5,
        Place::YToFOrigin => 6,
        Place::YPerturbedToFPerturbed => 7,
    }
}

fn request_flag(request: Request) -> u64
    ensures { result ≡ request_flag request }
{
    match request {
        Request::Derivative(_) => 0,
        Request::Jacobian(_) => 0,
        Request::Report(_, _, offered) => flag_word(offered),
        Request::Ended(status) => status_number(status),
    }
}

// Writes the request.
fn tell(request: Request, place: Place, told: &mut [u64; 3])
    ensures { told.new ≡ told_of request place }
{
    *told = [
        kind_number(request),
        place_number(place),
        request_flag(request),
    ];
}

// Writes its points.
fn tell_points(request: Request, at: &mut [f64; 2])
    ensures { at.new ≡ at_of request }
{
    match request {
        Request::Derivative(x) => {
            *at = [x, x];
        }
        Request::Jacobian(x) => {
            *at = [x, x];
        }
        Request::Report(xold, x, _) => {
            *at = [xold, x];
        }
        Request::Ended(_) => {
            *at = [0.0, 0.0];
        }
    }
}

// Whether the open request is a report.
fn report_is_open(stage: Stage) -> bool
    ensures { result ≡ (asking_at stage).report }
{
    let asked = asking_at(stage);
    asked.report
}

pub fn reply_of(stage: Stage, reply: u64, value: f64) -> Reply
    ensures { result ≡ reply_of stage reply value }
{
    match reply {
        1 => Reply::Filled,
        2 => Reply::Continue,
        3 => Reply::Interrupt,
        4 => Reply::Modified(value),
        5 => Reply::Mark(value),
        _ => if report_is_open(stage) {
            Reply::Filled
        } else {
            Reply::Continue
        },
    }
}

// Writes what an opening answers.
pub fn tell_opened(
    opened: Result<talk::Call, Refusal>,
    words: &mut [usize; WORDS],
    doubles: &mut [f64; DOUBLES],
    told: &mut [u64; 3],
    at: &mut [f64; 2],
) -> u64
    ensures { crossed result words.new doubles.new told.new at.new
        ≡ of_opened opened words.old doubles.old told.old at.old }
{
    match opened {
        Err(refusal) => refusal_number(refusal),
        Ok(call) => {
            *words = words_of(call.run);
            *doubles = doubles_of(call.run);
            tell(call.request, call.place, told);
            tell_points(call.request, at);
            0
        }
    }
}

// Writes what an advance asks for, and the run that it came to in the one way in which a state is left.
pub fn tell_call(
    call: Call,
    words: &mut [usize; WORDS],
    doubles: &mut [f64; DOUBLES],
    told: &mut [u64; 3],
    at: &mut [f64; 2],
) -> u64
    ensures { crossed result words.new doubles.new told.new at.new
        ≡ asked_of (run_at words.old doubles.old) call.request call.place }
{
    let run = run_at(words, doubles);
    let request = call.request;
    let place = call.place;
    *words = words_of(run);
    *doubles = doubles_of(run);
    tell(request, place, told);
    tell_points(request, at);
    0
}

fn end_numbers(res: IntegrationResult) -> [u64; 9]
    ensures { result ≡ end_numbers res }
{
    let status = res.status;
    let counts = res.counts;
    let blame = res.blame;
    [
        status_number(status),
        counts.ode as u64,
        counts.jac as u64,
        counts.lu as u64,
        counts.total as u64,
        counts.accepted as u64,
        counts.rejected as u64,
        blame_kind(blame) as u64,
        blame_column(blame) as u64,
    ]
}

// Writes the result of a run that has ended.
pub fn tell_result(
    res: Option<IntegrationResult>,
    numbers: &mut [u64; 9],
    floats: &mut [f64; 4],
) -> u64
    ensures { ended result numbers.new floats.new
        ≡ of_result res numbers.old floats.old }
{
    match res {
        None => 29,
        Some(end) => {
            let words = end_numbers(end);
            *numbers = words;
            *floats = [end.h, end.x, end.smallest, end.largest];
            0
        }
    }
}

// The lines of a night, taken in pieces of any size: a record goes in by value, and the next comes back.
ghost use Rattle.std.specs.Prelude.{◌≡◌};
ghost use Rattle.night_totals.specs.Night.{night_at, start_of, full_of, beyond_of, wrong_at, judged_of, step_of};
ghost use Rattle.night_totals.specs.Night.{fed_of, told_of};

use crate::adding::{added, none};
use crate::entry::Entry;
use crate::filling::Filling;
use crate::form::{blank, filled};
use crate::lines::fit;
use crate::totals::Totals;
use std::num::wrapping_add_u64;

// The most lines of a night.
pub const MOST_LINES: u64 = 65_535;

const FORM: &[u8; 56] = b"status # accepted # rejected # total # ode # jac # lu #\n";

// How the line stands that has begun.
#[derive(Clone, Copy)]
pub enum Stand {
    Open,
    Wrong,
    // It is one too many.
    Beyond,
    // It is one too many, behind a wrong one.
    WrongBeyond,
}

#[derive(Clone, Copy)]
pub struct Night {
    pub stand: Stand,
    // The line that has begun.
    pub filling: Filling,
    // The totals of the lines before it.
    pub totals: Totals,
}

// Why lines have no totals: the number of the first wrong one, or that there are too many.
#[derive(Clone, Copy)]
pub enum NightError {
    Malformed(u64),
    TooMany,
}

// No bytes yet.
pub fn start() -> Night
    ensures { result ≡ start_of }
{
    Night {
        stand: Stand::Open,
        filling: blank(),
        totals: none(),
    }
}

// Whether a byte would begin a line too many.
#[tactic(auto, unfolding(crate::specs::Night::full_of))]
fn full(filling: Filling, totals: Totals) -> bool
    ensures { result ≡ full_of filling totals }
{
    filling.at == 0 && MOST_LINES <= totals.lines
}

// A line is one too many; that one was wrong is not forgotten.
fn beyond(stand: Stand) -> Stand
    ensures { result ≡ beyond_of stand }
{
    match stand {
        Stand::Open => Stand::Beyond,
        Stand::Wrong => Stand::WrongBeyond,
        Stand::Beyond => Stand::Beyond,
        Stand::WrongBeyond => Stand::WrongBeyond,
    }
}

// Behind a wrong line nothing more can come.
fn wrong(totals: Totals) -> Night
    ensures { result ≡ wrong_at totals }
{
    Night {
        stand: Stand::Wrong,
        filling: blank(),
        totals: totals,
    }
}

// A line that has come whole is judged.
#[tactic(auto, unfolding(crate::specs::Night::judged_of, words::specs::Loop::pick))]
fn judged(totals: Totals, line: Option<Filling>) -> Night
    ensures { result ≡ judged_of totals line }
{
    let Some(filling) = line else {
        return wrong(totals);
    };
    if filling.at != FORM.len() {
        return Night {
            stand: Stand::Open,
            filling: filling,
            totals: totals,
        };
    }
    let entry = Entry::from(filling.values);
    if !fit(entry) {
        return wrong(totals);
    }
    Night {
        stand: Stand::Open,
        filling: blank(),
        totals: added(totals, entry),
    }
}

#[tactic(auto, unfolding(crate::specs::Night::step_of, words::specs::Loop::pick))]
fn step(night: Night, byte: u8) -> Night
    ensures { result ≡ step_of night byte }
{
    if full(night.filling, night.totals) {
        return Night {
            stand: beyond(night.stand),
            ..night
        };
    }
    match night.stand {
        Stand::Open => judged(night.totals, filled(FORM, night.filling, byte)),
        Stand::Wrong => wrong(night.totals),
        Stand::Beyond | Stand::WrongBeyond => night,
    }
}

// Takes a piece.
pub fn fed(night: Night, piece: &[u8]) -> Night
    ensures { result ≡ fed_of night piece.now }
{
    let mut next = night;
    for byte in piece {
        next = step(next, *byte);
    }
    next
}

// The totals of all that was taken, where nothing more comes.
#[tactic(auto, unfolding(crate::specs::Night::told_of, words::specs::Loop::pick))]
pub fn told(night: Night) -> Result<Totals, NightError>
    ensures { result ≡ told_of night }
{
    match night.stand {
        Stand::Open if night.filling.at == 0 => Ok(night.totals),
        Stand::Beyond | Stand::WrongBeyond => Err(NightError::TooMany),
        _ => Err(NightError::Malformed(wrapping_add_u64(night.totals.lines, 1))),
    }
}

// One line more.
ghost use Rattle.std.specs.Prelude.{◌≡◌};
ghost use Rattle.night_totals.specs.Night.{no_totals, leads_of, added_of};

use crate::counts::{Counts, Runs};
use crate::entry::Entry;
use crate::totals::Totals;
use std::num::wrapping_add_u64;

// The totals of no lines.
pub fn none() -> Totals
    ensures { result ≡ no_totals }
{
    Totals {
        lines: 0,
        runs: Runs {
            status0: 0,
            status1: 0,
            status2: 0,
            status3: 0,
            status5: 0,
            status7: 0,
        },
        counts: Counts {
            accepted: 0,
            rejected: 0,
            total: 0,
            ode: 0,
            jac: 0,
            lu: 0,
        },
        largest: 0,
        place: 0,
    }
}

// Whether a further line has the largest ode. Of equal ones the first has it.
#[tactic(auto, unfolding(crate::specs::Night::leads_of))]
fn leads(totals: Totals, ode: u64) -> bool
    ensures { result ≡ leads_of totals ode }
{
    totals.lines == 0 || totals.largest < ode
}

// The totals with one line more. Of totals that were read no sum is near 2^64; of others it wraps.
#[tactic(auto, unfolding(words::specs::Loop::pick))]
pub fn added(totals: Totals, entry: Entry) -> Totals
    ensures { result ≡ added_of totals entry }
{
    let lines = wrapping_add_u64(totals.lines, 1);
    let (largest, place) = if leads(totals, entry.counts.ode) {
        (entry.counts.ode, lines)
    } else {
        (totals.largest, totals.place)
    };
    Totals {
        lines: lines,
        runs: totals.runs.counted(entry.status),
        counts: totals.counts.added(entry.counts),
        largest: largest,
        place: place,
    }
}

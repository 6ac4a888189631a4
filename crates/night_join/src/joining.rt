// Two totals joined.
ghost use Rattle.std.specs.Prelude.{◌≡◌, ◌+◌, ◌≤◌, ◌==◌, nat_lt};
ghost use Rattle.night_totals.specs.Entries.{most_lines};
ghost use Rattle.night_join.specs.Join.{runs_in, place_in, fit_totals, join_of};
ghost use Rattle.night_join.specs.Words.{place_word, sum_words};

use night_totals::entry::MOST_COUNT;
use night_totals::night::MOST_LINES;
use night_totals::totals::Totals;
use std::num::wrapping_add_u64;

// Why two totals are not joined: a side is unfit, or there are too many lines.
#[derive(Clone, Copy)]
pub enum JoinError {
    Unfit,
    TooMany,
}

// Whether the runs per status sum to the lines. Six words sum to less than 2^128.
fn summed(t: Totals) -> bool
    ensures { result ≡ (runs_in t == t.lines) }
{
    let runs = t.runs.status0 as u128
        + t.runs.status1 as u128
        + t.runs.status2 as u128
        + t.runs.status3 as u128
        + t.runs.status5 as u128
        + t.runs.status7 as u128;
    runs == t.lines as u128
}

// Whether a place is that of a line; 0 where there is none.
#[tactic(auto, unfolding(crate::specs::Join::place_in))]
fn placed(lines: u64, place: u64) -> bool
    ensures { result ≡ place_in lines place }
{
    place <= lines && (lines == 0 || 0 < place)
}

// Whether totals can be joined.
#[tactic(auto, unfolding(crate::specs::Join::fit_totals))]
fn fit(t: Totals) -> bool
    ensures { result ≡ fit_totals t }
{
    t.lines <= MOST_LINES
        && summed(t)
        && t.counts.within(MOST_COUNT * t.lines)
        && t.largest <= t.counts.ode
        && placed(t.lines, t.place)
}

// The place of the larger of two, the second's behind the lines of the first; of equal ones the first's.
#[tactic(auto, unfolding(crate::specs::Words::place_word, words::specs::Loop::pick))]
fn place_of(a: Totals, b: Totals) -> u64
    ensures { result ≡ place_word a b }
{
    if a.lines == 0 {
        return b.place;
    }
    if a.largest < b.largest {
        return wrapping_add_u64(a.lines, b.place);
    }
    a.place
}

// The totals of the lines one after the other. Of fit totals no sum wraps.
fn sum(a: Totals, b: Totals) -> Totals
    ensures { result ≡ sum_words a b }
{
    Totals {
        lines: wrapping_add_u64(a.lines, b.lines),
        runs: a.runs.joined(b.runs),
        counts: a.counts.added(b.counts),
        largest: a.largest.max(b.largest),
        place: place_of(a, b),
    }
}

// Whether there are too many lines in all.
fn beyond(first: u64, second: u64) -> bool
    ensures { result ≡ nat_lt most_lines (first + second) }
{
    MOST_LINES < first || MOST_LINES - first < second
}

// The totals of the lines one after the other. 28 comes before 26.
#[tactic(auto, unfolding(crate::specs::Join::join_of, words::specs::Loop::pick))]
pub fn join(first: Totals, second: Totals) -> Result<Totals, JoinError>
    ensures { result ≡ join_of first second }
{
    if !fit(first) || !fit(second) {
        return Err(JoinError::Unfit);
    }
    if beyond(first.lines, second.lines) {
        return Err(JoinError::TooMany);
    }
    Ok(sum(first, second))
}

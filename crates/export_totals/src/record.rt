// The record of a night as 37 words, and its totals as 15. Read, every word means something: of a flag 0 is no, and any
// other word yes.
ghost use Rattle.std.specs.Prelude.{◌+◌, ◌≤◌, ◌≡◌, length};
ghost use Rattle.export_totals.specs.Record.{totals_words, line_words, words_of};
ghost use Rattle.export_totals.specs.Record.{totals_from, number_from, filling_from, stand_from, night_from};

use night_totals::counts::{Counts, Runs};
use night_totals::filling::{Filling, Number};
use night_totals::night::{Night, Stand};
use night_totals::totals::Totals;

// How many words the totals take, at the front.
const TOTALS: usize = 15;

pub fn totals_words(totals: Totals) -> [u64; 15]
    ensures { result ≡ totals_words totals }
{
    [
        totals.lines,
        totals.runs.status0,
        totals.runs.status1,
        totals.runs.status2,
        totals.runs.status3,
        totals.runs.status5,
        totals.runs.status7,
        totals.counts.accepted,
        totals.counts.rejected,
        totals.counts.total,
        totals.counts.ode,
        totals.counts.jac,
        totals.counts.lu,
        totals.largest,
        totals.place,
    ]
}

// One by one, the numbers of a night stay in registers while it is fed. As a block they are copied at each byte.
fn one_by_one(values: [u64; 16]) -> [u64; 16]
    ensures { result ≡ values }
{
    [
        values[0], values[1], values[2], values[3], values[4], values[5], values[6], values[7],
        values[8], values[9], values[10], values[11], values[12], values[13], values[14],
        values[15],
    ]
}

// How the line stands that has begun, and how far it has come.
#[tactic(auto, unfolding(words::specs::Loop::pick))]
fn line_words(night: Night) -> [u64; 22]
    ensures { result ≡ line_words night }
{
    let filling = night.filling;
    let (beyond, wrong) = match night.stand {
        Stand::Open => (0, 0),
        Stand::Wrong => (0, 1),
        Stand::Beyond => (1, 0),
        Stand::WrongBeyond => (1, 1),
    };
    let (begun, value) = match filling.number {
        Number::Awaited(value) => (0, value),
        Number::Begun(value) => (1, value),
    };
    let mut words = [0u64; 22];
    words[..6].copy_from_slice(&[
        beyond,
        filling.at as u64,
        begun,
        value,
        filling.filled as u64,
        wrong,
    ]);
    words[6..].copy_from_slice(&one_by_one(filling.values));
    words
}

pub fn words_of(night: Night) -> [u64; 37]
    ensures { result ≡ words_of night }
{
    let mut words = [0u64; 37];
    words[..TOTALS].copy_from_slice(&totals_words(night.totals));
    words[TOTALS..].copy_from_slice(&line_words(night));
    words
}

// The totals that words begin with.
fn totals_from(words: &[u64]) -> Totals
    requires { 15 ≤ length words.now }
    ensures { result ≡ totals_from words.now }
{
    Totals {
        lines: words[0],
        runs: Runs {
            status0: words[1],
            status1: words[2],
            status2: words[3],
            status3: words[4],
            status5: words[5],
            status7: words[6],
        },
        counts: Counts {
            accepted: words[7],
            rejected: words[8],
            total: words[9],
            ode: words[10],
            jac: words[11],
            lu: words[12],
        },
        largest: words[13],
        place: words[14],
    }
}

#[tactic(auto, unfolding(words::specs::Loop::pick))]
fn number_from(begun: u64, value: u64) -> Number
    ensures { result ≡ number_from begun value }
{
    if begun != 0 {
        return Number::Begun(value);
    }
    Number::Awaited(value)
}

fn filling_from(words: &[u64; 37]) -> Filling
    ensures { result ≡ filling_from words.now }
{
    let mut values = [0u64; 16];
    values.copy_from_slice(&words[21..]);
    Filling {
        at: words[16] as usize,
        number: number_from(words[17], words[18]),
        filled: words[19] as usize,
        values: values,
    }
}

#[tactic(auto, unfolding(words::specs::Loop::pick))]
fn stand_from(beyond: u64, wrong: u64) -> Stand
    ensures { result ≡ stand_from beyond wrong }
{
    if beyond != 0 {
        return if wrong != 0 {
            Stand::WrongBeyond
        } else {
            Stand::Beyond
        };
    }
    if wrong != 0 {
        Stand::Wrong
    } else {
        Stand::Open
    }
}

// The night of any words at all.
#[tactic(auto, unfolding(crate::specs::Record::night_from))]
pub fn night_from(words: &[u64; 37]) -> Night
    ensures { result ≡ night_from words.now }
{
    Night {
        stand: stand_from(words[15], words[20]),
        filling: filling_from(words),
        totals: totals_from(words),
    }
}

// Any totals at all.
pub fn totals_given(words: &[u64; 15]) -> Totals
    ensures { result ≡ totals_from words.now }
{
    totals_from(words)
}

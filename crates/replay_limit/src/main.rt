// Runs stored sheets in pairs, the second of a pair with a larger limit of steps, and holds what is printed of each
// against the stored answer, and the two against each other: where the first ended with any status but 2 they have the
// same bytes, and where it ended with 2 no count of the second is below the first's. It tells the first pairs that do
// not agree, and then gives a summary. tests/replays/replay_limit.py, which writes the pairs, says how the answers
// were made.
#![tactic(auto)]

use forecast::forecast;
use forecast_text::ending::{ForecastError, Reached};
use forecast_text::print;
use replay::count::{Counts, ROWS};
use replay::found::Found;
use replay::input::read_text;
use replay::out::Out;
use replay::told::Teller;
use replay::word::{ReadError, quarter, read_word};
use state::run::{self, Status};
use std::io::{self, Read};

// More pairs than there are.
const MOST_PAIRS: u64 = 1_000;

// Room for every sheet that is read to its end, and for every answer.
const ROOM: usize = 4_096;

// Room for all that is printed of a sheet.
const OUT: usize = 1024;

// The rows of the summary: the first ended with 0, 3 or 5; it ended with 2, and so did the second; the second did not.
#[derive(Clone, Copy, PartialEq)]
enum Row {
    Arrived,
    TooSmall,
    Singular,
    Over,
    NoLongerOver,
}

// What else becomes of a sheet has no row.
fn row_of(told: Result<Reached, ForecastError>) -> Option<Row> {
    match told.ok()?.result.status {
        Status::Success => Some(Row::Arrived),
        Status::UserInterrupt => None,
        Status::NeedLargerNMax => Some(Row::Over),
        Status::StepSizeTooSmall => Some(Row::TooSmall),
        Status::SingularMatrix => Some(Row::Singular),
    }
}

// The row of a pair, by those of its two sheets.
fn pair_row(first: Option<Row>, second: Option<Row>) -> Option<Row> {
    if first == Some(Row::Over) && second != Some(Row::Over) {
        return Some(Row::NoLongerOver);
    }
    first
}

// As much of an array as was printed. Of what lies behind a reference the length is known.
fn front(out: &[u8; OUT], printed: usize) -> &[u8] {
    let bytes = &out[..];
    let end = printed.min(bytes.len());
    &bytes[..end]
}

// Whether two texts have the same bytes.
fn alike(gave: &[u8], wanted: &[u8]) -> bool {
    Found::of_texts(gave, wanted).first.is_none()
}

// Whether no count of the longer run is below the shorter's.
fn grown(before: run::Counts, after: run::Counts) -> bool {
    (before.ode <= after.ode)
        && (before.jac <= after.jac)
        && (before.lu <= after.lu)
        && (before.total <= after.total)
        && (before.accepted <= after.accepted)
        && (before.rejected <= after.rejected)
}

// The same where both runs have ended, as every run does.
fn grown_ends(
    shorter: Result<Reached, ForecastError>,
    longer: Result<Reached, ForecastError>,
) -> bool {
    match (shorter, longer) {
        (Ok(before), Ok(after)) => grown(before.result.counts, after.result.counts),
        _ => false,
    }
}

// The counts after one pair more, of which all was read. Of the three that are found of it the first that fails is told
// by its place.
fn with_texts(to: Teller<'_>, counts: Counts, texts: [&[u8]; 4]) -> Counts {
    let [sheet, answer, raised, raised_answer] = texts;
    let mut out = [0u8; OUT];
    let mut raised_out = [0u8; OUT];
    let told = forecast(sheet);
    let raised_told = forecast(raised);
    let printed = print(told, &mut out);
    let raised_printed = print(raised_told, &mut raised_out);
    let text = front(&out, printed);
    let raised_text = front(&raised_out, raised_printed);
    let row = pair_row(row_of(told), row_of(raised_told));
    let is_over = matches!(row, None | Some(Row::Over | Row::NoLongerOver));
    let found = Found::nothing()
        .truth(alike(text, answer), true)
        .truth(alike(raised_text, raised_answer), true)
        .truth(
            alike(text, raised_text) || is_over && grown_ends(told, raised_told),
            true,
        );
    to.counted(counts, row.map_or(ROWS, |row| row as usize), found)
}

// The counts after one pair more, of which the head was read: it has the lengths of the four texts that follow.
fn with_pair<R: Read>(input: &mut R, to: Teller<'_>, counts: Counts, head: u64) -> Counts {
    let mut sheet = [0u8; ROOM];
    let mut answer = [0u8; ROOM];
    let mut raised = [0u8; ROOM];
    let mut raised_answer = [0u8; ROOM];
    let a = read_text(input, &mut sheet, quarter(head, 0) as usize);
    let b = read_text(input, &mut answer, quarter(head, 1) as usize);
    let c = read_text(input, &mut raised, quarter(head, 2) as usize);
    let d = read_text(input, &mut raised_answer, quarter(head, 3) as usize);
    match (a, b, c, d) {
        (Some(a), Some(b), Some(c), Some(d)) => with_texts(to, counts, [a, b, c, d]),
        _ => to.malformed(counts),
    }
}

// Nothing is read behind what is malformed.
fn replayed<R: Read>(input: &mut R, to: Teller<'_>) -> Counts {
    let mut counts = Counts::none();
    for _ in 0..MOST_PAIRS {
        if counts.malformed != 0 {
            return counts;
        }
        match read_word(input, b'\n') {
            Ok(head) => counts = with_pair(input, to, counts, head),
            Err(ReadError::Malformed) => return to.malformed(counts),
            Err(ReadError::End) => return counts,
        }
    }
    counts
}

fn main(rt: HostRuntime) -> io::Result<()> {
    let names: [&[u8]; 5] = [
        b"status 0, the same:",
        b"status 3, the same:",
        b"status 5, the same:",
        b"status 2, then 2:",
        b"status 2, then another:",
    ];
    let out = Out::new(rt.stdout());
    let mut input = rt.stdin();
    let to = Teller {
        out: &out,
        names: &names,
    };
    to.summary(replayed(&mut input, to));
    out.end()
}

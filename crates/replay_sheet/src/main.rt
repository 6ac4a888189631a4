// Runs stored sheets and compares what `decay` prints of each, byte by byte, with the stored answer; and writes each
// once more through its model, which is to give the same bytes, or the answer where it is no sheet. It tells the first
// that do not agree in both, and then gives a summary, a line for each status and each refusal.
// tests/replays/replay_sheet.py, which writes the sheets, says how the answers were made.
#![tactic(auto)]

mod record;

use forecast::forecast;
use forecast_text::ending::{ForecastError, Reached};
use forecast_text::print;
use record::{Head, read_head};
use replay::count::{Counts, ROWS};
use replay::found::Found;
use replay::input::read_text;
use replay::out::Out;
use replay::told::Teller;
use replay::word::ReadError;
use sheet_write::rewrite;
use state::run::Status;
use state::talk::Refusal;
use std::io::{self, Read};

// More records than there are.
const MOST_RECORDS: u64 = 2_000;

// Room for every sheet and answer that a head can announce.
const ROOM: usize = 10_000;

// Room for all that is printed of a sheet.
const OUT: usize = 1024;

// Room for every sheet that is written.
const SHEET: usize = 4096;

// The rows of the summary. From `Malformed` on bytes are no sheet.
#[derive(Clone, Copy)]
enum Row {
    Success,
    NeedLargerNMax,
    StepSizeTooSmall,
    SingularMatrix,
    NotFinite,
    MaxSteps,
    Tolerance,
    Malformed,
    TooLong,
}

// What else becomes of a sheet has no row: opening refuses it for these three reasons alone, and nobody interrupts.
fn row_of(told: Result<Reached, ForecastError>) -> Option<Row> {
    match told {
        Ok(reached) => match reached.result.status {
            Status::Success => Some(Row::Success),
            Status::UserInterrupt => None,
            Status::NeedLargerNMax => Some(Row::NeedLargerNMax),
            Status::StepSizeTooSmall => Some(Row::StepSizeTooSmall),
            Status::SingularMatrix => Some(Row::SingularMatrix),
        },
        Err(ForecastError::Opening(refusal)) => match refusal {
            Refusal::NotFinite(_) => Some(Row::NotFinite),
            Refusal::MaxSteps => Some(Row::MaxSteps),
            Refusal::Tolerance(_) => Some(Row::Tolerance),
            _ => None,
        },
        Err(ForecastError::Malformed(_)) => Some(Row::Malformed),
        Err(ForecastError::TooLong) => Some(Row::TooLong),
    }
}

// As much of an array as was written. Of what lies behind a reference the length is known.
fn front<const N: usize>(out: &[u8; N], count: usize) -> &[u8] {
    let bytes = &out[..];
    let end = count.min(bytes.len());
    &bytes[..end]
}

// A sheet once more: the same bytes, or the stored answer where it is no sheet.
fn rewritten(row: Option<Row>, sheet: &[u8], wanted: &[u8]) -> Found {
    let mut out = [0u8; SHEET];
    let count = rewrite(sheet, &mut out);
    let expected = match row {
        None | Some(Row::Malformed | Row::TooLong) => wanted,
        Some(_) => sheet,
    };
    Found::of_texts(front(&out, count), expected)
}

// The counts after one record more, whose sheet and answer were read. Of two comparisons the first that differs counts.
fn with_answer(to: Teller<'_>, counts: Counts, sheet: &[u8], wanted: &[u8]) -> Counts {
    let mut text = [0u8; OUT];
    let told = forecast(sheet);
    let printed = print(told, &mut text);
    let row = row_of(told);
    let found = Found::of_texts(front(&text, printed), wanted);
    let other = rewritten(row, sheet, wanted);
    let found = if found.first.is_none() { other } else { found };
    to.counted(counts, row.map_or(ROWS, |row| row as usize), found)
}

// The counts after one record more, of which the head was read.
fn with_record<R: Read>(input: &mut R, to: Teller<'_>, counts: Counts, head: Head) -> Counts {
    let mut bytes = [0u8; ROOM];
    let mut wanted = [0u8; ROOM];
    let sheet = read_text(input, &mut bytes, head.sheet);
    let answer = read_text(input, &mut wanted, head.answer);
    match (sheet, answer) {
        (Some(sheet), Some(answer)) => with_answer(to, counts, sheet, answer),
        _ => to.malformed(counts),
    }
}

// Nothing is read behind what is malformed.
fn replayed<R: Read>(input: &mut R, to: Teller<'_>) -> Counts {
    let mut counts = Counts::none();
    for _ in 0..MOST_RECORDS {
        if counts.malformed != 0 {
            return counts;
        }
        match read_head(input) {
            Ok(head) => counts = with_record(input, to, counts, head),
            Err(ReadError::Malformed) => return to.malformed(counts),
            Err(ReadError::End) => return counts,
        }
    }
    counts
}

fn main(rt: HostRuntime) -> io::Result<()> {
    let names: [&[u8]; 9] = [
        b"status 0:",
        b"status 2:",
        b"status 3:",
        b"status 5:",
        b"refused 3:",
        b"refused 4:",
        b"refused 9:",
        b"refused 20:",
        b"refused 21:",
    ];
    let out = Out::new(rt.stdout());
    let mut input = rt.stdin();
    let to = Teller {
        out: &out,
        names: &names,
    };
    to.summary(replayed(&mut input, to));
    out.end()
}

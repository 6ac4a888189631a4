// Replays stored runs of the Rust's own `solve`: each is opened, and each reply of the Rust's host is handed to the
// advance. Every request, with all 22 parts of memory as they are handed out, and every result is compared with what
// the Rust asked. It tells the first that do not agree, and then gives a summary, a line for each kind of request, for
// each status, for each reply, and for the runs.
#![tactic(auto)]

mod call;
mod memory;
mod stored;
mod turn;

use replay::count::Counts;
use replay::found::Found;
use replay::out::Out;
use replay::told::Teller;
use replay::word::ReadError;
use std::io::{self, Read};
use stored::{HEAD, Opening, read_asked, read_opening};
use turn::Replay;

// More runs than there are.
const MOST_RUNS: u64 = 1_000;

// The row of a reply is its number behind this one, and then that of the runs.
const REPLIES: usize = 14;

const RUNS: usize = 20;

// No row of the summary.
const NO_ROW: usize = 99;

// The row of a request, by its kind, place, flag and reply. A head that no request has is none, and makes it malformed.
fn row_of(head: u64) -> usize {
    match head {
        0x1101 => 0,
        0x1201 => 1,
        0x1301 => 2,
        0x1401 => 3,
        0x1501 => 4,
        0x1601 => 5,
        0x1701 => 6,
        0x2001 => 7,
        0x3002 | 0x3003 | 0x3004 | 0x3005 => 8,
        0x3012 | 0x3013 | 0x3014 | 0x3015 => 9,
        0x4000 => 10,
        0x4010 => 11,
        0x4020 => 12,
        0x4030 => 13,
        0x4050 => 14,
        _ => NO_ROW,
    }
}

// The counts after one reply more, which is not to be refused. The end of a run has none.
fn with_reply(to: Teller<'_>, counts: Counts, run: &Replay, head: u64) -> Counts {
    let reply = head % 0x10;
    if reply == 0 {
        return counts;
    }
    let taken = Found::nothing().truth(run.is_refused(), false);
    to.counted(counts, REPLIES + reply as usize, taken)
}

// The counts after one run more: all its requests, of which the last is to be its end.
fn with_run<R: Read>(input: &mut R, to: Teller<'_>, before: Counts, opening: Opening) -> Counts {
    let mut counts = before;
    let mut run = Replay::new(opening);
    let mut head = 0;
    for _ in 0..opening.requests() {
        let Ok(words) = read_asked(input, run.n) else {
            return to.malformed(counts);
        };
        head = words[HEAD];
        counts = to.counted(counts, row_of(head), run.met(words));
        run.reply(words);
        counts = with_reply(to, counts, &run, head);
    }
    to.counted(counts, RUNS, Found::nothing().compared(head / 0x1000, 4))
}

// Nothing is read behind what is malformed.
fn replayed<R: Read>(input: &mut R, to: Teller<'_>) -> Counts {
    let mut counts = Counts::none();
    for _ in 0..MOST_RUNS {
        if counts.malformed != 0 {
            return counts;
        }
        match read_opening(input) {
            Ok(opening) => counts = with_run(input, to, counts, opening),
            Err(ReadError::Malformed) => return to.malformed(counts),
            Err(ReadError::End) => return counts,
        }
    }
    counts
}

fn main(rt: HostRuntime) -> io::Result<()> {
    let names: [&[u8]; 21] = [
        b"derivative y to f0:",
        b"derivative cont to z1:",
        b"derivative cont to z2:",
        b"derivative cont to z3:",
        b"derivative cont to f1:",
        b"derivative y to f_origin:",
        b"derivative y_perturbed to f_perturbed:",
        b"Jacobian:",
        b"report:",
        b"report with coefficients:",
        b"ended, status 0:",
        b"ended, status 1:",
        b"ended, status 2:",
        b"ended, status 3:",
        b"ended, status 5:",
        b"reply filled:",
        b"reply continue:",
        b"reply interrupt:",
        b"reply modified:",
        b"reply mark:",
        b"runs:",
    ];
    let out = Out::new(rt.stdout());
    let mut input = rt.stdin();
    let to = Teller {
        out: &out,
        names: &names,
    };
    to.summary(replayed(&mut input, to));
    out.end()
}

// Hands forged states of runs, with replies of every kind, to `admission`, and compares each verdict with what the case
// says. It tells the first cases that do not agree, and then gives a summary, a line for each kind of case.
// tests/replays/replay_admission.py makes the cases from document 01's words.
#![tactic(auto)]

mod call;
mod case;

use call::number_told;
use case::read_case;
use replay::count::Counts;
use replay::found::Found;
use replay::out::Out;
use replay::told::Teller;
use replay::word::ReadError;
use std::io::{self, Read};

// More cases than there are.
const MOST_CASES: u64 = 20_000;

fn replayed<R: Read>(input: &mut R, to: Teller<'_>) -> Counts {
    let mut counts = Counts::none();
    for _ in 0..MOST_CASES {
        match read_case(input) {
            Ok(case) => {
                let found = Found::nothing().compared(number_told(case), case.wanted());
                counts = to.counted(counts, case.row(), found);
            }
            Err(ReadError::Malformed) => return to.malformed(counts),
            Err(ReadError::End) => return counts,
        }
    }
    counts
}

// The names of the rows, in the order of tests/replays/replay_admission.py.
fn main(rt: HostRuntime) -> io::Result<()> {
    let names: [&[u8]; 28] = [
        b"n fit:",
        b"n unfit:",
        b"lengths unfit:",
        b"settings fit:",
        b"settings unfit:",
        b"partition fit:",
        b"partition unfit:",
        b"attempts fit:",
        b"attempts unfit:",
        b"rounds fit:",
        b"rounds unfit:",
        b"column fit:",
        b"column unfit:",
        b"singular count fit:",
        b"singular count unfit:",
        b"pivots fit:",
        b"pivots unfit:",
        b"counts fit:",
        b"counts unfit:",
        b"strides fit:",
        b"strides unfit:",
        b"two clauses:",
        b"13 before 14:",
        b"13 before 15:",
        b"ended 14:",
        b"replies admitted:",
        b"replies 15:",
        b"untested:",
    ];
    let out = Out::new(rt.stdout());
    let mut input = rt.stdin();
    let to = Teller {
        out: &out,
        names: &names,
    };
    to.summary(replayed(&mut input, to));
    out.end()
}

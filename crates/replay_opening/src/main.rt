// Opens a run for each case of standard input, and compares the answer and all 22 parts of the lent memory, bit by bit,
// with what the case says. It tells the first value of the first cases that do not agree, and then gives a summary, a
// line for the accepted openings and one for each row of document 01's table.
#![tactic(auto)]

mod answer;
mod call;
mod case;
mod memory;
mod part;

use call::judged;
use case::read_case;
use replay::count::Counts;
use replay::out::Out;
use replay::told::Teller;
use replay::word::ReadError;
use std::io::{self, Read};

// More cases than there are.
const MOST_CASES: u64 = 20_000;

fn replayed<R: Read>(input: &mut R, to: Teller<'_>) -> Counts {
    let mut counts = Counts::none();
    for _ in 0..MOST_CASES {
        match read_case(input) {
            Ok(case) => counts = to.counted(counts, case.row() as usize, judged(case)),
            Err(ReadError::Malformed) => return to.malformed(counts),
            Err(ReadError::End) => return counts,
        }
    }
    counts
}

fn main(rt: HostRuntime) -> io::Result<()> {
    let names: [&[u8]; 13] = [
        b"accepted:",
        b"refused 1:",
        b"refused 2:",
        b"refused 3:",
        b"refused 4:",
        b"refused 5:",
        b"refused 6:",
        b"refused 7:",
        b"refused 8:",
        b"refused 9:",
        b"refused 10:",
        b"refused 11:",
        b"refused 12:",
    ];
    let out = Out::new(rt.stdout());
    let mut input = rt.stdin();
    let to = Teller {
        out: &out,
        names: &names,
    };
    to.summary(replayed(&mut input, to));
    out.end()
}

// Replays the vectors of standard input: calls each line's routine at the line's operands, and compares
// the result, bit by bit, with the line's answer. It writes the first lines that do not agree, each with
// what the routine gave, and then a summary, a line for each routine.
#![tactic(auto)]

mod line;
mod routine;

use bits::pattern;
use line::decode;
use replay::count::Counts;
use replay::input::read_full;
use replay::out::Out;
use replay::told::{MOST_TOLD, Teller};
use routine::result;
use std::io::{self, Read};

// More lines than the vectors have.
const MOST_LINES: u64 = 20_000;

fn malformed(out: &Out, counts: Counts, text: &[u8; 73]) -> Counts {
    if counts.missed < MOST_TOLD {
        out.write(b"malformed ");
        out.write(text);
        out.write(b"\n");
    }
    counts.unread()
}

fn differing(out: &Out, counts: Counts, text: &[u8; 73], at: usize, gave: u64) -> Counts {
    if counts.missed < MOST_TOLD {
        out.write(b"gave ");
        out.hex(gave);
        out.write(b" at ");
        out.write(text);
    }
    counts.differed(at)
}

// The counts after one line more.
fn judged(out: &Out, counts: Counts, text: &[u8; 73]) -> Counts {
    let Some(vector) = decode(text) else {
        return malformed(out, counts, text);
    };
    let at = vector.routine as usize;
    let gave = pattern(result(vector));
    if gave == vector.answer {
        return counts.agreed(at);
    }
    differing(out, counts, text, at, gave)
}

fn replayed<R: Read>(input: &mut R, out: &Out) -> Counts {
    let mut counts = Counts::none();
    for _ in 0..MOST_LINES {
        let mut text = [0u8; 73];
        if read_full(input, &mut text) == 0 {
            return counts;
        }
        counts = judged(out, counts, &text);
    }
    counts
}

// The names of the rows, in the order of `Routine`.
fn main(rt: HostRuntime) -> io::Result<()> {
    let names: [&[u8]; 13] = [
        b"sqrt",
        b"root",
        b"inverse_root",
        b"power",
        b"two_thirds",
        b"four_fifths",
        b"quarter",
        b"abs",
        b"max",
        b"min",
        b"clamp",
        b"signum",
        b"coefficient",
    ];
    let out = Out::new(rt.stdout());
    let mut input = rt.stdin();
    let to = Teller {
        out: &out,
        names: &names,
    };
    to.summary(replayed(&mut input, &out));
    out.end()
}

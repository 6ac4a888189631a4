// Replays the answers of standard input: fills the memory as each case says, calls its routine, and compares the answer
// and all that the routine may write, bit by bit, with what the case says. It tells the first value of the first cases
// that do not agree, and then gives a summary, a line for each routine and one for the refusals.
#![tactic(auto)]

mod call;
mod line;
mod memory;
mod refusal;
mod routine;

use call::called;
use line::{Case, read_head};
use memory::{Lent, Memory, fill, meet};
use refusal::{Refusal, SINGULAR};
use replay::count::Counts;
use replay::found::Found;
use replay::out::Out;
use replay::told::Teller;
use replay::word::{ReadError, read_word};
use routine::{REFUSALS, Routine};
use std::io::{self, Read};

// More cases than there are.
const MOST_CASES: u64 = 20_000;

// Fills the memory as the case says: the matrix and the pivots where it gives them, and the right side.
fn given<R: Read>(input: &mut R, case: Case, memory: &mut Memory) -> bool {
    let Lent { ar, ai, br, bi, ip } = memory.lend(case);
    let factors = case.held || fill(input, ar) & fill(input, ai) & fill(input, ip);
    let side = fill(input, br) & fill(input, bi);
    factors & side
}

// Holds the answer against the head, and with 17 the column against the next line.
fn met_answer<R: Read>(input: &mut R, case: Case, answer: Result<(), Refusal>) -> Found {
    let found = met_number(case, answer);
    if case.wanted == SINGULAR {
        let column = match answer {
            Err(Refusal::Singular(column)) => column,
            _ => 0,
        };
        return found.held_against(column as u64, read_word(input, b'\n'));
    }
    found
}

// Document 01's number of the answer, and 0 where the routine did its work.
fn met_number(case: Case, answer: Result<(), Refusal>) -> Found {
    let number = match answer {
        Ok(()) => 0,
        Err(refusal) => refusal.number(),
    };
    Found::nothing().compared(number, case.wanted)
}

// A case in which the routine works: the lines after it tell all that it may have written.
fn worked<R: Read>(input: &mut R, case: Case, routine: Routine, memory: &mut Memory) -> Found {
    let answer = called(case, routine, memory);
    let found = met_answer(input, case, answer);
    let Lent { ar, ai, br, bi, ip } = memory.lend(case);
    if routine.is_decomposition() {
        let found = meet(input, ar, found);
        let found = meet(input, ai, found);
        return meet(input, ip, found);
    }
    let found = meet(input, br, found);
    meet(input, bi, found)
}

// A case that the routine refuses: nothing is written to the memory.
fn refused(case: Case, routine: Routine, memory: &mut Memory) -> Found {
    let before = *memory;
    let answer = called(case, routine, memory);
    memory.kept(&before, met_number(case, answer))
}

// The counts after one case more. A case whose letter means no routine is read like one of `lin_solve_complex`.
fn judged<R: Read>(
    input: &mut R,
    to: Teller<'_>,
    counts: Counts,
    case: Case,
    memory: &mut Memory,
) -> Counts {
    let good = given(input, case, memory);
    let routine = case.routine.unwrap_or(Routine::LinSolveComplex);
    let (row, found) = if case.is_worked() {
        (routine.row(), worked(input, case, routine, memory))
    } else {
        (REFUSALS, refused(case, routine, memory))
    };
    if good & case.routine.is_some() {
        return to.counted(counts, row, found);
    }
    to.malformed(counts)
}

fn replayed<R: Read>(input: &mut R, to: Teller<'_>) -> Counts {
    let mut counts = Counts::none();
    let mut memory = Memory::empty();
    for _ in 0..MOST_CASES {
        match read_head(input) {
            Ok(case) => counts = judged(input, to, counts, case, &mut memory),
            Err(ReadError::Malformed) => return to.malformed(counts),
            Err(ReadError::End) => return counts,
        }
    }
    counts
}

fn main(rt: HostRuntime) -> io::Result<()> {
    let names: [&[u8]; 7] = [
        b"lu_decomp",
        b"lu_decomp_complex",
        b"lin_solve",
        b"lin_solve_complex",
        b"interpolate",
        b"bounds",
        b"refusals",
    ];
    let out = Out::new(rt.stdout());
    let mut input = rt.stdin();
    let to = Teller {
        out: &out,
        names: &names,
    };
    to.summary(replayed(&mut input, to));
    out.end()
}

// What an advance led to, held against the stored request, and the host's reply to it.
use crate::call::{advance, start};
use crate::memory::{digest, part, write_derivative};
use crate::stored::{ASKED, DIGEST, FLOATS, HEAD, Opening};
use bits::double;
use radau::advance::Resumed;
use replay::found::Found;
use replay::memory::Memory;
use state::run::{Counts, Run};
use state::talk::{Call, IntegrationResult, Place, Reply, Request};
use state::{blame_column, blame_kind, status_number};

fn place_number(place: Place) -> u64 {
    match place {
        Place::Nowhere => 0,
        Place::YToF0 => 1,
        Place::ContToZ1 => 2,
        Place::ContToZ2 => 3,
        Place::ContToZ3 => 4,
        Place::ContToF1 => 5,
        Place::YToFOrigin => 6,
        Place::YPerturbedToFPerturbed => 7,
    }
}

fn kind(request: Request) -> u64 {
    match request {
        Request::Derivative(_) => 1,
        Request::Jacobian(_) => 2,
        Request::Report(_, _, _) => 3,
        Request::Ended(_) => 4,
    }
}

// Of a report whether coefficients are offered, of an end the status.
fn flag(request: Request) -> u64 {
    match request {
        Request::Report(_, _, offered) => u64::from(offered),
        Request::Ended(status) => status_number(status),
        _ => 0,
    }
}

fn met_counts(found: Found, counts: Counts, words: [u64; ASKED]) -> Found {
    found
        .compared(counts.ode as u64, words[FLOATS + 2])
        .compared(counts.jac as u64, words[FLOATS + 3])
        .compared(counts.lu as u64, words[FLOATS + 4])
        .compared(counts.total as u64, words[FLOATS + 5])
        .compared(counts.accepted as u64, words[FLOATS + 6])
        .compared(counts.rejected as u64, words[FLOATS + 7])
}

fn met_end(found: Found, ended: IntegrationResult, words: [u64; ASKED]) -> Found {
    let step = found
        .double(ended.h, words[FLOATS])
        .double(ended.x, words[FLOATS + 1]);
    let blame = ended.blame;
    met_counts(step, ended.counts, words)
        .compared(blame_kind(blame) as u64, words[FLOATS + 8])
        .compared(blame_column(blame) as u64, words[FLOATS + 9])
        .double(ended.smallest, words[FLOATS + 10])
        .double(ended.largest, words[FLOATS + 11])
}

fn met_result(found: Found, run: Run, words: [u64; ASKED]) -> Found {
    match run.result() {
        Some(ended) => met_end(found, ended, words),
        None => found.truth(false, true),
    }
}

fn met_floats(found: Found, call: Call, words: [u64; ASKED]) -> Found {
    match call.request {
        Request::Derivative(x) | Request::Jacobian(x) => found.double(x, words[FLOATS]),
        Request::Report(xold, x, _) => found
            .double(xold, words[FLOATS])
            .double(x, words[FLOATS + 1]),
        Request::Ended(_) => met_result(found, call.run, words),
    }
}

fn met_call(found: Found, call: Call, words: [u64; ASKED]) -> Found {
    let head = words[HEAD];
    let same = found
        .compared(kind(call.request), head / 0x1000)
        .compared(place_number(call.place), head / 0x100 % 0x10)
        .compared(flag(call.request), head / 0x10 % 0x10);
    met_floats(same, call, words)
}

fn reply_of(words: [u64; ASKED]) -> Reply {
    match words[HEAD] % 0x10 {
        2 => Reply::Continue,
        3 => Reply::Interrupt,
        4 => Reply::Modified(double(words[FLOATS + 2])),
        5 => Reply::Mark(double(words[FLOATS + 2])),
        _ => Reply::Filled,
    }
}

// A run that is replayed: its order, its memory, and the call that waits for a reply, where none was refused.
#[derive(Clone, Copy)]
pub struct Replay {
    pub n: usize,
    memory: Memory,
    call: Option<Call>,
}

impl Replay {
    pub fn new(opening: Opening) -> Replay {
        let ask = opening.ask();
        let mut memory = opening.memory();
        let call = start(ask, &mut memory);
        Replay {
            n: ask.n,
            memory,
            call,
        }
    }

    pub fn is_refused(&self) -> bool {
        self.call.is_none()
    }

    // The values are compared in this order: the digest of memory, the request's kind, place and flag, then its
    // floats, or at the end h, x, the six counts, the singular matrix that is blamed, with its column, and the strides.
    pub fn met(&self, words: [u64; ASKED]) -> Found {
        let found = Found::nothing().compared(digest(&self.memory, self.n), words[DIGEST]);
        match self.call {
            Some(call) => met_call(found, call, words),
            None => found.truth(false, true),
        }
    }

    // What the host writes before it replies.
    fn write(&mut self, words: [u64; ASKED]) {
        let head = words[HEAD];
        match head {
            0x2001 => self.memory.jac = part(&words, FLOATS + 1),
            0x3004 | 0x3014 => self.memory.y = part(&words, FLOATS + 3),
            _ => write_derivative(
                &mut self.memory,
                head / 0x100 % 0x10,
                part(&words, FLOATS + 1),
            ),
        }
    }

    // Goes on by the host's reply. A run that has ended or was refused gets none.
    pub fn reply(&mut self, words: [u64; ASKED]) {
        if words[HEAD] % 0x10 == 0 {
            return;
        }
        if let Some(call) = self.call {
            self.write(words);
            let turn = Resumed {
                run: call.run,
                reply: reply_of(words),
            };
            self.call = advance(turn, self.n, &mut self.memory);
        }
    }
}

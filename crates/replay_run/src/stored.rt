// Stored runs of the Rust: an opening, then each request with its reply, as words. tests/replays/replay_run.py, which
// writes them, says what they stand for.
ghost use Rattle.std.specs.Prelude.{◌≤◌};

use crate::call::Ask;
use crate::memory::{ORDER, lent, matrix_length, part, vector_length};
use bits::double;
use replay::memory::Memory;
use replay::settings::{LISTS, MASS_FULL, N, X0, XEND, choice, settings_of, tolerances_of};
use replay::word::{ReadError, read_block, read_words};
use std::io::Read;

// How many requests follow an opening.
const REQUESTS: usize = 19;

// Where the amounts stand; a Full mass and two lists of tolerances come after them, as far as they are given.
const GIVEN: usize = 20;

// The words of the longest opening.
const OPENING: usize = 48;

// A request's kind, place, flag and reply, a digit each, and the digest of memory as it is handed out. Its floats come
// after them, then what the host replies or, at the end of a run, the result.
pub const HEAD: usize = 0;

pub const DIGEST: usize = 1;

pub const FLOATS: usize = 2;

// The words of the longest request.
pub const ASKED: usize = 20;

#[derive(Clone, Copy)]
pub struct Opening {
    words: [u64; OPENING],
}

// Where the lists of tolerances begin.
fn lists_at(words: &[u64; OPENING]) -> usize
    ensures { result ≤ 40 }
{
    let n = words[N] as usize;
    let behind_amounts = GIVEN + vector_length(n);
    if choice(words, MASS_FULL) {
        return behind_amounts + matrix_length(n);
    }
    behind_amounts
}

// Where an opening ends.
fn opening_end(words: &[u64; OPENING]) -> usize {
    let n = words[N] as usize;
    let lists = lists_at(words);
    if choice(words, LISTS) {
        return lists + 2 * vector_length(n);
    }
    lists
}

impl Opening {
    pub fn requests(self) -> u64 {
        self.words[REQUESTS]
    }

    pub fn ask(self) -> Ask {
        let words = self.words;
        Ask {
            settings: settings_of(&words),
            n: words[N] as usize,
            x0: double(words[X0]),
            xend: double(words[XEND]),
            tolerances: tolerances_of(&words),
        }
    }

    pub fn memory(self) -> Memory {
        let words = self.words;
        let n = vector_length(words[N] as usize);
        let lists = lists_at(&words);
        lent(
            part(&words, GIVEN),
            part(&words, GIVEN + n),
            part(&words, lists),
            part(&words, lists + n),
        )
    }
}

// The next opening of standard input.
pub fn read_opening<R: Read>(input: &mut R) -> Result<Opening, ReadError> {
    let mut words = [0; OPENING];
    read_block(input, &mut words, GIVEN)?;
    let end = opening_end(&words);
    read_words(input, &mut words, GIVEN, end)?;
    if words[N] > ORDER as u64 {
        return Err(ReadError::Malformed);
    }
    Ok(Opening { words })
}

// How many words a host's reply to a report has.
fn told(reply: u64, n: usize) -> usize
    ensures { result ≤ 5 }
{
    match reply {
        4 => 1 + vector_length(n),
        5 => 1,
        _ => 0,
    }
}

// Where a request ends.
fn asked_end(head: u64, n: usize) -> usize {
    match head / 0x1000 {
        1 => FLOATS + 1 + vector_length(n),
        2 => FLOATS + 1 + matrix_length(n),
        3 => FLOATS + 2 + told(head % 16, n),
        4 => FLOATS + 12,
        _ => FLOATS,
    }
}

// The next request of a run of order n.
pub fn read_asked<R: Read>(input: &mut R, n: usize) -> Result<[u64; ASKED], ReadError> {
    let mut words = [0; ASKED];
    read_words(input, &mut words, 0, FLOATS)?;
    let end = asked_end(words[HEAD], n);
    read_words(input, &mut words, FLOATS, end)?;
    Ok(words)
}

// The head of a case, a line of its own. The values after it are words, one to a line.
// tests/replays/replay_matrix.py, which writes them, says how they are laid out.
use crate::refusal::SINGULAR;
use crate::routine::Routine;
use replay::input::read_full;
use replay::word::{ReadError, spelled};
use std::io::Read;

// The head of a case: which routine, if its letter means one, what it is to answer, whether the matrix and the pivots
// are those that the case before left, the order n, and how many entries of each part of the memory it is lent.
#[derive(Clone, Copy)]
pub struct Case {
    pub routine: Option<Routine>,
    pub wanted: u64,
    pub held: bool,
    pub n: usize,
    pub matrix: usize,
    pub matrix_imaginary: usize,
    pub side: usize,
    pub side_imaginary: usize,
    pub pivots: usize,
}

impl Case {
    // Whether the routine does its work, or as much of it as a singular matrix lets it do.
    pub fn is_worked(self) -> bool {
        (self.wanted == 0) | (self.wanted == SINGULAR)
    }
}

fn is_framed(head: &[u8; 44]) -> bool {
    let fields = (head[1] == b' ') & (head[4] == b' ') & (head[6] == b' ') & (head[23] == b' ');
    let counts = (head[27] == b' ') & (head[31] == b' ') & (head[35] == b' ') & (head[39] == b' ');
    fields & counts & (head[43] == b'\n')
}

fn decode(head: &[u8; 44]) -> Option<Case> {
    if !is_framed(head) {
        return None;
    }
    Some(Case {
        routine: Routine::of_letter(head[0]),
        wanted: spelled(head, 2, 4)?,
        held: head[5] == b'h',
        n: spelled(head, 7, 23)? as usize,
        matrix: spelled(head, 24, 27)? as usize,
        matrix_imaginary: spelled(head, 28, 31)? as usize,
        side: spelled(head, 32, 35)? as usize,
        side_imaginary: spelled(head, 36, 39)? as usize,
        pivots: spelled(head, 40, 43)? as usize,
    })
}

// The next line of standard input, which is to be the head of a case or not there.
pub fn read_head<R: Read>(input: &mut R) -> Result<Case, ReadError> {
    let mut head = [0u8; 44];
    if read_full(input, &mut head) == 0 {
        return Err(ReadError::End);
    }
    decode(&head).ok_or(ReadError::Malformed)
}

// A line of the vectors, taken apart: a letter, two digits, three operands and the answer.
// Its 73 bytes are laid out in tests/replays/replay_scalar.py, which writes them.
use crate::routine::{Routine, meant};
use bits::double;
use replay::word::spelled;

#[derive(Clone, Copy)]
pub struct Vector {
    pub routine: Routine,
    pub digits: u64,
    pub a: f64,
    pub b: f64,
    pub c: f64,
    pub answer: u64,
}

fn is_framed(line: &[u8; 73]) -> bool {
    let fields = (line[4] == b' ') & (line[21] == b' ') & (line[38] == b' ') & (line[55] == b' ');
    (line[1] == b' ') & fields & (line[72] == b'\n')
}

// None where the line is malformed.
pub fn decode(line: &[u8; 73]) -> Option<Vector> {
    if !is_framed(line) {
        return None;
    }
    let routine = meant(line[0])?;
    let digits = spelled(line, 2, 4)?;
    let a = spelled(line, 5, 21)?;
    let b = spelled(line, 22, 38)?;
    let c = spelled(line, 39, 55)?;
    let answer = spelled(line, 56, 72)?;
    Some(Vector {
        routine,
        digits,
        a: double(a),
        b: double(b),
        c: double(c),
        answer,
    })
}

// The head of a stored record: how many bytes the sheet and the answer have, in four decimal digits each.
use replay::input::read_full;
use replay::word::ReadError;
use std::io::Read;

// The lengths of the texts that follow.
#[derive(Clone, Copy)]
pub struct Head {
    pub sheet: usize,
    pub answer: usize,
}

// The number that digits spell. Of more than four, the last four count.
fn spelled(text: &[u8]) -> Option<usize> {
    let mut value = 0;
    for byte in text {
        value = match byte {
            b'0'..=b'9' => value % 1_000 * 10 + usize::from(byte - b'0'),
            _ => return None,
        };
    }
    Some(value)
}

fn decoded(text: &[u8; 10]) -> Option<Head> {
    if text[4] != b' ' || text[9] != b'\n' {
        return None;
    }
    Some(Head {
        sheet: spelled(&text[0..4])?,
        answer: spelled(&text[5..9])?,
    })
}

// The next head of standard input. One that breaks off is malformed.
pub fn read_head<R: Read>(input: &mut R) -> Result<Head, ReadError> {
    let mut text = [0; 10];
    match read_full(input, &mut text) {
        0 => Err(ReadError::End),
        10 => decoded(&text).ok_or(ReadError::Malformed),
        _ => Err(ReadError::Malformed),
    }
}

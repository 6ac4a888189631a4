// An input taken piece by piece to its end, and answered there.
ghost use Rattle.std.specs.Prelude.{◌≡◌, ◌≤◌};

use crate::reading::{MOST_READS, PIECE, read_piece};
use crate::telling::{unreadable, write_first};
use replay::out::Out;
use std::io::{self, Read};

// What takes a text in pieces of any size, and prints what all of it comes to.
pub trait Taker: Copy {
    fn fed(self, piece: &[u8]) -> Self;

    // Puts the bytes over the first of `out` and returns how many they are.
    fn print(self, out: &mut [u8; PIECE]) -> usize
        ensures { result ≤ 4096 };
}

// What an input led to that was read to its end.
fn taken<T: Taker, R: Read>(input: &mut R, start: T) -> io::Result<T> {
    let mut piece = [0u8; PIECE];
    let mut taker = start;
    for _ in 0..MOST_READS {
        match read_piece(input, &mut piece)? {
            Some(count) => taker = taker.fed(&piece[..count]),
            None => break,
        }
    }
    Ok(taker)
}

// Reads the input to its end and prints what it comes to, or that it can't be read.
pub fn answer<T: Taker, R: Read>(input: &mut R, to: &Out, start: T)
    ensures { result ≡ tt }
{
    match taken(input, start) {
        Ok(taker) => {
            let mut out = [0u8; PIECE];
            let printed = taker.print(&mut out);
            write_first(to, &out, printed);
        }
        Err(_) => unreadable(to),
    }
}

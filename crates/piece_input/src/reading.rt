// Standard input, read by read.
ghost use Rattle.piece_input.specs.Came.{CameInto};

use std::io::{self, Read};

pub const PIECE: usize = 4096;

// No input is as long.
pub const MOST_READS: u64 = 0xffff_ffff_ffff_ffff;

// How many bytes a read came to, over the first of `piece`; none at the end of the input.
pub fn read_piece<R: Read>(input: &mut R, piece: &mut [u8; PIECE]) -> io::Result<Option<usize>>
    ensures { CameInto piece.new result }
{
    match input.read(piece)? {
        0 => Ok(None),
        count => Ok(Some(count)),
    }
}

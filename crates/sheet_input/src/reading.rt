// Standard input, of which the first bytes are kept.
ghost use Rattle.sheet_input.specs.Input.{KeptIn};

use std::io::{self, Read};

// One byte more than a sheet may have, so that a longer one is told from it.
pub const KEPT: usize = 4097;

// No input is as long.
const MOST_READS: u64 = 0xffff_ffff_ffff_ffff;

// One read behind the bytes that are kept already, and how many bytes it gave: none at the end of the input. Where
// there is no more room, what comes is dropped.
fn read_some<R: Read>(input: &mut R, kept: &mut [u8], done: usize) -> io::Result<usize> {
    if done < kept.len() {
        return input.read(&mut kept[done..]);
    }
    let mut dropped = [0u8; 4096];
    input.read(&mut dropped)
}

// Reads standard input to its end, keeps its first bytes, and tells how many these are. After an error nothing is
// judged: to judge the part that came would blame a line that isn't wrong.
pub fn read_all<R: Read>(input: &mut R, kept: &mut [u8; KEPT]) -> io::Result<usize>
    ensures { KeptIn result }
{
    let mut done: usize = 0;
    for _ in 0..MOST_READS {
        let more = read_some(input, kept, done)?;
        if more == 0 {
            return Ok(done);
        }
        done = done.saturating_add(more).min(KEPT);
    }
    Ok(done)
}

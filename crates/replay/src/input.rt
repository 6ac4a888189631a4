// Standard input, or another reader, read until a block is full.
ghost use Rattle.std.specs.Prelude.{◌≡◌, take, length, IfSome};
ghost use Rattle.std.specs.Io.KnownBytes.{Consumes};
ghost use Rattle.replay.specs.Input.{IsPrefixLen};

use std::io::Read;

// Reads until the block is full, the input ends or a read fails, and returns how many bytes it put at its start: of a
// reader whose bytes are known just those that it gives up, none lost. For an empty block it reads nothing.
pub fn read_full<R: Read>(input: &mut R, block: &mut [u8]) -> usize
    ensures within { IsPrefixLen result block.new }
    ensures bytes { Consumes (R.remaining input.old) (R.remaining input.new) (take result block.new) }
{
    let mut done = 0;
    while done < block.len() {
        let Ok(count) = input.read(&mut block[done..]) else {
            return done;
        };
        if count == 0 {
            return done;
        }
        done += count;
    }
    done
}

// Reads a text of so many bytes into the room; nothing where there is no room for it or the input has fewer.
pub fn read_text<'a, R: Read>(input: &mut R, room: &'a mut [u8], count: usize) -> Option<&'a [u8]>
    ensures long { IfSome result (λ text. length text.now ≡ count) }
    ensures bytes { IfSome result (λ text. Consumes (R.remaining input.old) (R.remaining input.new) text.now) }
{
    if room.len() < count {
        return None;
    }
    let text = &mut room[..count];
    if read_full(input, text) < count {
        return None;
    }
    Some(text)
}

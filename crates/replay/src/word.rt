// Words: sixteen hexadecimal digits each, which stand for a number, for the bits of a double, or for
// four numbers of four digits.
ghost use Rattle.std.specs.Prelude.{◌≡◌, ◌≤◌};
ghost use Rattle.replay.specs.Word.{spelled_of, quarter_of};
ghost use Rattle.replay.specs.Read.{WordRead, after_of, WordsRead, BlockRead};

use crate::input::read_full;
use bits::digit;
use std::io::Read;

// Why there is no word: what stands there is none, or standard input has ended before it.
#[derive(Clone, Copy)]
pub enum ReadError {
    Malformed,
    End,
}

// The number that the digits from `from` up to `end` spell. Of more than sixteen, the last sixteen count.
pub fn spelled(text: &[u8], from: usize, end: usize) -> Option<u64>
    ensures { result ≡ spelled_of text.now from end }
{
    let mut value: u64 = 0;
    for byte in text.get(from..end)? {
        value = value % 0x1000_0000_0000_0000 * 16 + digit(*byte)? % 16;
    }
    Some(value)
}

// The next word of standard input, which `after` is to follow.
pub fn read_word<R: Read>(input: &mut R, after: u8) -> Result<u64, ReadError>
    ensures { WordRead after result }
{
    let mut text = [0u8; 17];
    if read_full(input, &mut text) == 0 {
        return Err(ReadError::End);
    }
    if text[16] != after {
        return Err(ReadError::Malformed);
    }
    spelled(&text, 0, 16).ok_or(ReadError::Malformed)
}

// What follows the word at a place of a block: four words stand on a line.
#[tactic(auto, unfolding(words::specs::Loop::pick))]
fn after(place: usize) -> u8
    ensures { result ≡ after_of place }
{
    if place % 4 == 3 { b'\n' } else { b' ' }
}

// Fills the block with the next words, from the place `from` up to `end`. It is malformed where one is missing, too.
pub fn read_words<R: Read>(
    input: &mut R,
    block: &mut [u64],
    from: usize,
    end: usize,
) -> Result<(), ReadError>
    ensures { WordsRead from end block.old block.new result }
{
    for i in from..end.min(block.len()) {
        let Ok(word) = read_word(input, after(i)) else {
            return Err(ReadError::Malformed);
        };
        block[i] = word;
    }
    Ok(())
}

// Fills the block with the next words, from its first up to `end`. Input that ends behind the first is malformed.
pub fn read_block<R: Read>(input: &mut R, block: &mut [u64], end: usize) -> Result<(), ReadError>
    ensures { BlockRead end block.old block.new result }
{
    if block.len() == 0 {
        return Err(ReadError::Malformed);
    }
    block[0] = read_word(input, b' ')?;
    read_words(input, block, 1, end)
}

// One of the four numbers of four digits that a word holds, the first being 0.
#[tactic(auto, unfolding(words::specs::Loop::pick))]
pub fn quarter(word: u64, place: usize) -> u64
    ensures upper_bound { result ≤ 65535 }
    ensures value { result ≡ quarter_of word place }
{
    match place {
        0 => word / 0x1_0000_0000_0000,
        1 => word / 0x1_0000_0000 % 0x1_0000,
        2 => word / 0x1_0000 % 0x1_0000,
        _ => word % 0x1_0000,
    }
}

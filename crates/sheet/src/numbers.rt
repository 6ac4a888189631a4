// Numbers read one after the other, each ended by its mark.
ghost use Rattle.std.specs.Prelude.{◌+◌, ◌≤◌, ◌≡◌, length, MatchResult};
ghost use Rattle.sheet.specs.Numbers.{number_of, piece_of, piece_at, ends_of, part_of, passage_at};

use crate::digits::spelled;
use crate::kind::{Kind, Phase, kind_at};

// A number, and what stands behind its mark.
#[derive(Clone, Copy)]
pub struct Token<'a> {
    pub value: u64,
    pub rest: &'a [u8],
}

// Where the reader stands: what is left to read, and how many lines have ended before it.
#[derive(Clone, Copy)]
pub struct Progress<'a> {
    pub rest: &'a [u8],
    pub lines: usize,
}

// The number that a text is. A decimal that is as long as its value has no zero in front.
#[tactic(auto, unfolding(crate::specs::Numbers::number_of, crate::specs::Numbers::judged_of, words::specs::Loop::pick))]
fn number(text: &[u8], kind: Kind) -> Option<u64>
    ensures { result ≡ number_of kind text.now }
{
    if 16 < text.len() {
        return None;
    }
    let value = spelled(text, kind.notation.base())?;
    if text.len() != kind.notation.width(value) {
        return None;
    }
    if value < kind.low || kind.high < value {
        return None;
    }
    Some(value)
}

// The number at the front, which reaches up to the first mark.
fn first_token(bytes: &[u8], kind: Kind) -> Option<Token<'_>>
    ensures { piece_at result ≡ piece_of kind bytes.now }
{
    let end = bytes.iter().position(|byte| *byte == kind.mark)?;
    let value = number(&bytes[..end], kind)?;
    Some(Token {
        value,
        rest: &bytes[end + 1..],
    })
}

// How many lines a mark ends.
#[tactic(auto, unfolding(crate::specs::Numbers::ends_of, words::specs::Loop::pick))]
fn ends(mark: u8) -> usize
    ensures { result ≡ ends_of mark }
{
    usize::from(mark == b'\n')
}

// Fills `store` with the first numbers of a part. Where one is wrong, tells how many lines have ended before it.
pub fn numbers<'a>(
    from: Progress<'a>,
    phase: Phase,
    species: u64,
    store: &mut [u64],
) -> Result<Progress<'a>, usize>
    requires { from.lines + length store.old ≤ 1000 }
    ensures result_after { passage_at store.new result
        ≡ part_of phase species (length store.old) from.entry.lines from.entry.rest.now }
    ensures few { MatchResult result (λ p. p.lines ≤ from.entry.lines + length store.old)
        (λ lines. lines ≤ from.entry.lines + length store.old) }
{
    let mut rest = from.rest;
    let mut lines = from.lines;
    for (i, entry) in store.iter_mut().enumerate() {
        let kind = kind_at(phase, species, i);
        let next = first_token(rest, kind).ok_or(lines)?;
        *entry = next.value;
        rest = next.rest;
        lines += ends(kind.mark);
    }
    Ok(Progress { rest, lines })
}

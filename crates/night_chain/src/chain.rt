// Printed totals, taken in pieces of any size: a record goes in by value, and the next comes back.
ghost use Rattle.std.specs.Prelude.{◌≡◌};
ghost use Rattle.night_join.specs.Join.{then_join};
ghost use Rattle.night_chain.specs.Chain.{start_of, lines_of, taken_of, step_of, fed_of, told_of};
ghost use Rattle.night_chain.specs.declared.chain.ChainError.TheVariants.{Join};

use night_join::join;
use night_join::joining::JoinError;
use night_totals::filling::Filling;
use night_totals::form::{blank, filled};
use night_totals::printed::TOTALS_FORM;
use night_totals::totals::Totals;
use std::num::wrapping_add_u64;

const LINE_END: u8 = 10;

// How the totals stand that have begun.
#[derive(Clone, Copy)]
pub enum Stand {
    Open(Filling),
    // A line of them is wrong.
    Wrong(Filling),
}

#[derive(Clone, Copy)]
pub struct Chain {
    // The totals that have begun.
    pub stand: Stand,
    // The lines before.
    pub lines: u64,
    // The totals before, joined.
    pub joined: Result<Totals, JoinError>,
}

// Why totals have no sum: the first line that is wrong or missing, or a refused join.
#[derive(Clone, Copy)]
pub enum ChainError {
    Malformed(u64),
    Join(JoinError),
}

impl From<JoinError> for ChainError {
    ghost from_gives = { λ refused given. given ≡ Join refused };

    fn from(refused: JoinError) -> ChainError {
        ChainError::Join(refused)
    }
}

// No bytes yet.
pub fn start() -> Chain
    ensures { result ≡ start_of }
{
    Chain {
        stand: Stand::Open(blank()),
        lines: 0,
        joined: Ok(Totals::from([0u64; 16])),
    }
}

#[tactic(auto, unfolding(crate::specs::Chain::lines_of, words::specs::Loop::pick))]
fn lines_of(lines: u64, byte: u8) -> u64
    ensures { result ≡ lines_of lines byte }
{
    if byte == LINE_END {
        return wrapping_add_u64(lines, 1);
    }
    lines
}

// The first refused join ends it.
#[tactic(auto, unfolding(night_join::specs::Join::then_join))]
fn then_join(joined: Result<Totals, JoinError>, next: Totals) -> Result<Totals, JoinError>
    ensures { result ≡ then_join joined next }
{
    join(joined?, next)
}

// What a byte led to.
#[tactic(auto, unfolding(crate::specs::Chain::taken_of, words::specs::Loop::pick))]
fn taken(lines: u64, joined: Result<Totals, JoinError>, next: Option<Filling>, byte: u8) -> Chain
    ensures { result ≡ taken_of lines joined next byte }
{
    let Some(filling) = next else {
        return Chain {
            stand: Stand::Wrong(blank()),
            lines: lines,
            joined: joined,
        };
    };
    if filling.at != TOTALS_FORM.len() {
        return Chain {
            stand: Stand::Open(filling),
            lines: lines_of(lines, byte),
            joined: joined,
        };
    }
    Chain {
        stand: Stand::Open(blank()),
        lines: lines_of(lines, byte),
        joined: then_join(joined, Totals::from(filling.values)),
    }
}

#[tactic(auto, unfolding(crate::specs::Chain::step_of))]
fn step(chain: Chain, byte: u8) -> Chain
    ensures { result ≡ step_of chain byte }
{
    match chain.stand {
        Stand::Open(filling) => {
            let next = filled(TOTALS_FORM, filling, byte);
            taken(chain.lines, chain.joined, next, byte)
        }
        Stand::Wrong(_) => chain,
    }
}

// Takes a piece.
pub fn fed(chain: Chain, piece: &[u8]) -> Chain
    ensures { result ≡ fed_of chain piece.now }
{
    let mut next = chain;
    for byte in piece {
        next = step(next, *byte);
    }
    next
}

// All totals that were taken, joined, where nothing more comes.
#[tactic(auto, unfolding(crate::specs::Chain::told_of, crate::specs::Reads::answer_of, words::specs::Loop::pick))]
pub fn told(chain: Chain) -> Result<Totals, ChainError>
    ensures { result ≡ told_of chain }
{
    match chain.stand {
        Stand::Open(filling) if filling.at == 0 => Ok(chain.joined?),
        _ => Err(ChainError::Malformed(wrapping_add_u64(chain.lines, 1))),
    }
}

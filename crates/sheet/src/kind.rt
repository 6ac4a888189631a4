// What kind of number stands where in a sheet.
ghost use Rattle.std.specs.Prelude.{◌≡◌};
ghost use Rattle.sheet.specs.Kinds.{setting_of, reaction_of, kind_of, hex_kind, decimal_kind};

use crate::spelling::Notation;

// A sheet asks for no more steps.
const MOST_STEPS: u64 = 9_999_999_999;

// How a number is written, its least and greatest value, and the byte that ends it.
#[derive(Clone, Copy)]
pub struct Kind {
    pub notation: Notation,
    pub low: u64,
    pub high: u64,
    pub mark: u8,
}

// The parts of a sheet in order. The number of species ends the settings.
#[derive(Clone, Copy)]
pub enum Phase {
    Settings,
    Amounts,
    Count,
    Reactions,
}

fn hexadecimal(mark: u8) -> Kind
    ensures { result ≡ hex_kind mark }
{
    Kind {
        notation: Notation::Hexadecimal,
        low: 0,
        high: 0xffff_ffff_ffff_ffff,
        mark,
    }
}

fn decimal(low: u64, high: u64, mark: u8) -> Kind
    ensures { result ≡ decimal_kind low high mark }
{
    Kind {
        notation: Notation::Decimal,
        low,
        high,
        mark,
    }
}

#[tactic(auto, unfolding(crate::specs::Kinds::setting_of, words::specs::Loop::pick))]
fn setting(i: usize) -> Kind
    ensures { result ≡ setting_of i }
{
    match i {
        0 => decimal(6, 6, b'\n'),
        1..=4 => hexadecimal(b'\n'),
        5 => decimal(0, MOST_STEPS, b'\n'),
        6 => decimal(0, 1, b'\n'),
        _ => decimal(1, 32, b'\n'),
    }
}

// Five numbers to a reaction.
#[tactic(auto, unfolding(crate::specs::Kinds::reaction_of, words::specs::Loop::pick))]
fn reaction(species: u64, i: usize) -> Kind
    ensures { result ≡ reaction_of species i }
{
    match i % 5 {
        0 => hexadecimal(b' '),
        1..=3 => decimal(0, species, b' '),
        _ => decimal(0, species, b'\n'),
    }
}

// The kind of a part's number `i`, counted from 0.
#[tactic(auto, unfolding(crate::specs::Kinds::kind_of))]
pub fn kind_at(phase: Phase, species: u64, i: usize) -> Kind
    ensures { result ≡ kind_of phase species i }
{
    match phase {
        Phase::Settings => setting(i),
        Phase::Amounts => hexadecimal(b'\n'),
        Phase::Count => decimal(0, 64, b'\n'),
        Phase::Reactions => reaction(species, i),
    }
}

// A case: an opening, and what is wanted of it. Its words stand in one block: first those of n, the ends and
// the settings, then under the places that are named here. tests/replays/replay_opening.py, which writes them,
// says what they stand for.
use bits::double;
use replay::settings::{LISTS, N, X0, XEND, choice, settings_of, tolerances_of};
use replay::word::{ReadError, quarter, read_block, read_words};
use state::run::Tolerances;
use state::settings::Settings;
use std::io::Read;

// The words of an opening.
pub const OPENING: usize = 40;

// The words of an opening and of what is wanted of an accepted one.
pub const WORDS: usize = 52;

// The words of two converted lists, in pairs.
pub const PAIRS: usize = 68;

// The row of document 01's table that refuses, or 0; which float failed; its place in a list.
pub const OUTCOME: usize = 19;

// The lengths of the parts, four to a word.
pub const LENGTHS: usize = 20;

// The part and the place of one entry that stands outside of its part's rule; its pattern follows.
pub const EXCEPTION: usize = 26;

// The first entry and the step of y, mass, rtol, atol, the working parts and the pivots.
pub const CONTENTS: usize = 28;

pub const WANTED_H: usize = 40;

pub const WANTED_HMAX: usize = 41;

pub const WANTED_HMIN: usize = 42;

pub const WANTED_POSNEG: usize = 43;

pub const WANTED_NEWTON_TOL: usize = 44;

pub const WANTED_RTOL: usize = 45;

pub const WANTED_ATOL: usize = 46;

pub const WANTED_ODE: usize = 47;

pub const WANTED_NIND1: usize = 48;

pub const WANTED_NIND2: usize = 49;

pub const WANTED_NIND3: usize = 50;

// What an opening is asked with, beside memory.
#[derive(Clone, Copy)]
pub struct Ask {
    pub settings: Settings,
    pub n: usize,
    pub x0: f64,
    pub xend: f64,
    pub tolerances: Tolerances,
}

#[derive(Clone, Copy)]
pub struct Case {
    pub words: [u64; WORDS],
    pub pairs: [u64; PAIRS],
}

impl Case {
    pub fn choice(self, bit: u64) -> bool {
        choice(&self.words, bit)
    }

    // The row that refuses, or 0.
    pub fn row(self) -> u64 {
        quarter(self.words[OUTCOME], 0)
    }

    pub fn is_accepted(self) -> bool {
        self.row() == 0
    }

    pub fn ask(self) -> Ask {
        let words = self.words;
        Ask {
            settings: settings_of(&words),
            n: words[N] as usize,
            x0: double(words[X0]),
            xend: double(words[XEND]),
            tolerances: tolerances_of(&words),
        }
    }
}

// How many words tell the converted lists: whole lines of two pairs, where lists are given.
fn pair_words(words: &[u64; WORDS]) -> usize {
    let n = words[N];
    if choice(words, LISTS) && n <= 32 {
        ((n + 1) / 2 * 4) as usize
    } else {
        0
    }
}

// The next case of standard input. What is wanted of an accepted one follows.
pub fn read_case<R: Read>(input: &mut R) -> Result<Case, ReadError> {
    let mut words = [0; WORDS];
    let mut pairs = [0; PAIRS];
    read_block(input, &mut words, OPENING)?;
    if quarter(words[OUTCOME], 0) == 0 {
        read_words(input, &mut words, OPENING, WORDS)?;
        read_words(input, &mut pairs, 0, pair_words(&words))?;
    }
    Ok(Case { words, pairs })
}

// The memory that the routines are lent: filled from the lines of standard input, and held
// against them or against a copy.
use crate::line::Case;
use replay::found::Found;
use replay::memory::Entry;
use replay::word::read_word;
use std::io::Read;

// The entries of each part of the memory: as many as the matrix of the first order that is refused has.
const ROOM: usize = 1089;

// A matrix and a right side, each with its imaginary parts, and the pivots.
#[derive(Clone, Copy)]
pub struct Memory {
    pub ar: [f64; ROOM],
    pub ai: [f64; ROOM],
    pub br: [f64; ROOM],
    pub bi: [f64; ROOM],
    pub ip: [usize; ROOM],
}

// As much of each as a case says.
#[derive(Drop)]
pub struct Lent<'a> {
    pub ar: &'a mut [f64],
    pub ai: &'a mut [f64],
    pub br: &'a mut [f64],
    pub bi: &'a mut [f64],
    pub ip: &'a mut [usize],
}

fn cut<E>(entries: &mut [E; ROOM], length: usize) -> &mut [E] {
    &mut entries[..length.min(ROOM)]
}

impl Memory {
    pub fn empty() -> Memory {
        Memory {
            ar: [0.0; ROOM],
            ai: [0.0; ROOM],
            br: [0.0; ROOM],
            bi: [0.0; ROOM],
            ip: [0; ROOM],
        }
    }

    pub fn lend(&mut self, case: Case) -> Lent<'_> {
        Lent {
            ar: cut(&mut self.ar, case.matrix),
            ai: cut(&mut self.ai, case.matrix_imaginary),
            br: cut(&mut self.br, case.side),
            bi: cut(&mut self.bi, case.side_imaginary),
            ip: cut(&mut self.ip, case.pivots),
        }
    }

    // Holds all of it against a copy.
    pub fn kept(&self, before: &Memory, found: Found) -> Found {
        let found = kept(&self.ar, &before.ar, found);
        let found = kept(&self.ai, &before.ai, found);
        let found = kept(&self.br, &before.br, found);
        let found = kept(&self.bi, &before.bi, found);
        kept(&self.ip, &before.ip, found)
    }
}

// Fills the part with the next lines. False where one is no value; the others are read all the same.
pub fn fill<R: Read, E: Entry>(input: &mut R, part: &mut [E]) -> bool {
    let mut good = true;
    for entry in part {
        match read_word(input, b'\n') {
            Ok(word) => *entry = E::from_word(word),
            Err(_) => good = false,
        }
    }
    good
}

// Holds the part against the next lines.
pub fn meet<R: Read, E: Entry>(input: &mut R, part: &[E], found: Found) -> Found {
    let mut now = found;
    for entry in part {
        now = now.held_against(entry.to_word(), read_word(input, b'\n'));
    }
    now
}

// Holds the part against a copy.
fn kept<E: Entry>(part: &[E; ROOM], before: &[E; ROOM], found: Found) -> Found {
    let mut now = found;
    for (entry, entry_before) in part.iter().zip(before) {
        now = now.compared(entry.to_word(), entry_before.to_word());
    }
    now
}

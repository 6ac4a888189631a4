// The lent memory of a run, by value: 22 parts, each in an array that has room for every order that is replayed.
ghost use Rattle.std.specs.Prelude.{◌≡◌, ℕ, take};
ghost use Rattle.replay.specs.Memory.{lent_of};
ghost use Rattle.words.specs.Words.{double};
ghost use Rattle.bits.specs.Pattern.{pattern_of};

use bits::{double, pattern};
use std::marker::Model;

// The entries of an array for n amounts, 4 n coefficients or n n entries of a matrix, where n is at
// most 33, and one entry more.
pub const VECTOR: usize = 34;

pub const COEFFICIENTS: usize = 133;

pub const MATRIX: usize = 1090;

// How many parts there are.
pub const PARTS: usize = 22;

// What a part of memory has entries of: each stands in a word.
pub trait Entry: Copy {
    ghost by_word: { ℕ → Self };

    ghost word_of: { Self → ℕ };

    fn from_word(word: u64) -> Self
        ensures { result ≡ by_word word };

    fn to_word(self) -> u64
        ensures { result ≡ word_of self };
}

impl Entry for f64 {
    ghost by_word = { double };

    ghost word_of = { pattern_of };

    fn from_word(word: u64) -> f64 {
        double(word)
    }

    fn to_word(self) -> u64 {
        pattern(self)
    }
}

impl Entry for usize {
    ghost by_word = { λ word. word };

    ghost word_of = { λ entry. entry };

    fn from_word(word: u64) -> usize {
        word as usize
    }

    fn to_word(self) -> u64 {
        self as u64
    }
}

#[derive(Clone, Copy)]
pub struct Memory {
    pub y: [f64; VECTOR],
    pub f0: [f64; VECTOR],
    pub scal: [f64; VECTOR],
    pub cont: [f64; COEFFICIENTS],
    pub z1: [f64; VECTOR],
    pub z2: [f64; VECTOR],
    pub z3: [f64; VECTOR],
    pub f1: [f64; VECTOR],
    pub f2: [f64; VECTOR],
    pub f3: [f64; VECTOR],
    pub rtol: [f64; VECTOR],
    pub atol: [f64; VECTOR],
    pub mass: [f64; MATRIX],
    pub jac: [f64; MATRIX],
    pub e1: [f64; MATRIX],
    pub e2r: [f64; MATRIX],
    pub e2i: [f64; MATRIX],
    pub ip1: [usize; VECTOR],
    pub ip2: [usize; VECTOR],
    pub y_perturbed: [f64; VECTOR],
    pub f_perturbed: [f64; VECTOR],
    pub f_origin: [f64; VECTOR],
}

// The parts of memory, as they are lent to a call: each is cut to its length.
#[derive(Drop)]
pub struct Lent<'a> {
    pub y: &'a mut [f64],
    pub f0: &'a mut [f64],
    pub scal: &'a mut [f64],
    pub cont: &'a mut [f64],
    pub z1: &'a mut [f64],
    pub z2: &'a mut [f64],
    pub z3: &'a mut [f64],
    pub f1: &'a mut [f64],
    pub f2: &'a mut [f64],
    pub f3: &'a mut [f64],
    pub rtol: &'a mut [f64],
    pub atol: &'a mut [f64],
    pub mass: &'a mut [f64],
    pub jac: &'a mut [f64],
    pub e1: &'a mut [f64],
    pub e2r: &'a mut [f64],
    pub e2i: &'a mut [f64],
    pub ip1: &'a mut [usize],
    pub ip2: &'a mut [usize],
    pub y_perturbed: &'a mut [f64],
    pub f_perturbed: &'a mut [f64],
    pub f_origin: &'a mut [f64],
}

// A clause sees what stands in the parts, and not where they lie or under which names they are borrowed.
impl<'a> Model for Lent<'a> {
    ghost use Rattle.replay.specs.Parts.{Parts};

    ghost Value = { Parts };

    ghost view = { λ l. record {
      y = l.y.now;
      f0 = l.f0.now;
      scal = l.scal.now;
      cont = l.cont.now;
      z1 = l.z1.now;
      z2 = l.z2.now;
      z3 = l.z3.now;
      f1 = l.f1.now;
      f2 = l.f2.now;
      f3 = l.f3.now;
      rtol = l.rtol.now;
      atol = l.atol.now;
      mass = l.mass.now;
      jac = l.jac.now;
      e1 = l.e1.now;
      e2r = l.e2r.now;
      e2i = l.e2i.now;
      ip1 = l.ip1.now;
      ip2 = l.ip2.now;
      y_perturbed = l.y_perturbed.now;
      f_perturbed = l.f_perturbed.now;
      f_origin = l.f_origin.now;
    } };
}

// As much of an array as its part is long.
fn cut<E, const N: usize>(entries: &mut [E; N], length: usize) -> &mut [E]
    ensures { result.now ≡ take length entries.old }
{
    let all = &mut entries[..];
    let end = length.min(all.len());
    &mut all[..end]
}

impl Memory {
    // Each part as far as its length goes, and as far as there is room for it.
    pub fn lend(&mut self, lengths: [usize; PARTS]) -> Lent<'_>
        ensures { result ≡ lent_of self.old lengths }
    {
        Lent {
            y: cut(&mut self.y, lengths[0]),
            f0: cut(&mut self.f0, lengths[1]),
            scal: cut(&mut self.scal, lengths[2]),
            cont: cut(&mut self.cont, lengths[3]),
            z1: cut(&mut self.z1, lengths[4]),
            z2: cut(&mut self.z2, lengths[5]),
            z3: cut(&mut self.z3, lengths[6]),
            f1: cut(&mut self.f1, lengths[7]),
            f2: cut(&mut self.f2, lengths[8]),
            f3: cut(&mut self.f3, lengths[9]),
            rtol: cut(&mut self.rtol, lengths[10]),
            atol: cut(&mut self.atol, lengths[11]),
            mass: cut(&mut self.mass, lengths[12]),
            jac: cut(&mut self.jac, lengths[13]),
            e1: cut(&mut self.e1, lengths[14]),
            e2r: cut(&mut self.e2r, lengths[15]),
            e2i: cut(&mut self.e2i, lengths[16]),
            ip1: cut(&mut self.ip1, lengths[17]),
            ip2: cut(&mut self.ip2, lengths[18]),
            y_perturbed: cut(&mut self.y_perturbed, lengths[19]),
            f_perturbed: cut(&mut self.f_perturbed, lengths[20]),
            f_origin: cut(&mut self.f_origin, lengths[21]),
        }
    }
}

// A text that is put together in room of its own, one part behind the other.
ghost use Rattle.std.specs.Prelude.{◌≡◌, ◌≤◌, ◌+◌, ◌++◌, List, ℕ, [], take, length};
ghost use Rattle.sheet.specs.Digits.{hex_of};
ghost use Rattle.sheet.specs.Reader.{over};
ghost use Rattle.forecast_text.specs.Printed.{text, numeral_of, float_of};
ghost use Rattle.forecast_text.specs.Put.{Put, put};
ghost use Rattle.forecast_text.specs.Numerals.{lowest, last_digits};

use crate::numerals::{DIGITS, decimal_width, digits_of, put_digits};
use bits::pattern;
use std::marker::Model;

// As many hexadecimal digits as a number of 64 bits may have.
const HEX_DIGITS: usize = 16;

// Puts bytes from a place on, and returns the place behind them. By a loop, which is a few plain moves where the bytes
// are few and known.
#[inline(always)]
fn put_text(out: &mut [u8], at: usize, bytes: &[u8]) -> usize
    requires { at + length bytes.now ≤ length out.old }
    ensures { Put at bytes.now out.old out.new result }
{
    for (i, byte) in bytes.iter().enumerate() {
        out[at + i] = *byte;
    }
    at + bytes.len()
}

// The bytes of the text stand in the first `count` of its room. What finds no room behind them is left out.
#[derive(Drop)]
pub struct Text<const ROOM: usize> {
    bytes: [u8; ROOM],
    count: usize,
}

impl<const ROOM: usize> Model for Text<ROOM> {
    ghost Value = { List ℕ };

    ghost view = { λ t. take t.count t.bytes };

    ghost invariant = { λ t. t.count ≤ ROOM };
}

impl<const ROOM: usize> Text<ROOM> {
    pub fn new() -> Self
        ensures { result ≡ [] }
    {
        Text {
            bytes: [0; ROOM],
            count: 0,
        }
    }

    pub fn len(&self) -> usize
        ensures value { result ≡ length self.now }
        ensures upper_bound { result ≤ ROOM }
    {
        self.count
    }

    // Puts the text over the first bytes of lent memory. What is longer than that is left out.
    pub fn copy_over(&self, out: &mut [u8])
        ensures { out.new ≡ over self.now out.old }
    {
        let room = &self.bytes[..];
        let text = &room[0..self.count];
        put_text(out, 0, &text[0..out.len().min(self.count)]);
    }

    // A text that finds room is put whole, so that a short one costs no more than its bytes.
    #[inline(always)]
    pub fn put(&mut self, bytes: &[u8])
        ensures { self.new ≡ put ROOM self.old bytes.now }
    {
        if bytes.len() <= ROOM - self.count {
            let room = &mut self.bytes[..];
            self.count = put_text(room, self.count, bytes);
        } else {
            self.put_cut(bytes);
        }
    }

    #[cold]
    #[inline(never)]
    fn put_cut(&mut self, bytes: &[u8])
        ensures { self.new ≡ put ROOM self.old bytes.now }
    {
        let fit = (ROOM - self.count).min(bytes.len());
        let room = &mut self.bytes[..];
        self.count = put_text(room, self.count, &bytes[0..fit]);
    }

    // Puts the last `width` digits of a number with a name in front.
    #[inline(always)]
    fn put_lowest(&mut self, name: &[u8], base: u64, width: usize, value: u64)
        requires width { width ≤ 20 }
        requires base { (2 ≤ base) × (base ≤ 16) }
        ensures { self.new ≡ put ROOM self.old (name.now ++ lowest base width value) }
    {
        if name.len() + width <= ROOM - self.count {
            let room = &mut self.bytes[..];
            let behind = put_text(room, self.count, name);
            self.count = put_digits(room, behind, base, width, value);
        } else {
            self.put_lowest_cut(name, base, width, value);
        }
    }

    #[cold]
    #[inline(never)]
    fn put_lowest_cut(&mut self, name: &[u8], base: u64, width: usize, value: u64)
        requires width { width ≤ 20 }
        requires base { (2 ≤ base) × (base ≤ 16) }
        ensures { self.new ≡ put ROOM self.old (name.now ++ lowest base width value) }
    {
        let digits = digits_of(base, width, value);
        self.put_cut(name);
        self.put_cut(&digits[0..width]);
    }

    // Puts the last `width` digits of a number, twenty at most: all of it where they spell it.
    #[inline(always)]
    pub fn put_digits(&mut self, base: u64, width: usize, value: u64)
        ensures { self.new ≡ put ROOM self.old (last_digits base width value) }
    {
        self.put_lowest(b"", base.clamp(2, 16), width.min(DIGITS), value);
    }

    // Puts a number with as many decimal digits as it has.
    #[inline(always)]
    pub fn put_number(&mut self, value: u64)
        ensures { self.new ≡ put ROOM self.old (numeral_of value) }
    {
        self.put_lowest(b"", 10, decimal_width(value), value);
    }

    // Puts a number with sixteen hexadecimal digits.
    pub fn put_hex(&mut self, value: u64)
        ensures { self.new ≡ put ROOM self.old (hex_of value) }
    {
        self.put_lowest(b"", 16, HEX_DIGITS, value);
    }

    // Puts a double by its bits, one pattern for every NaN.
    pub fn put_float(&mut self, x: f64)
        ensures { self.new ≡ put ROOM self.old (float_of x) }
    {
        self.put_hex(pattern(x));
    }

    // Puts a number with its name in front.
    #[inline(always)]
    pub fn put_named(&mut self, name: &[u8], value: u64)
        ensures { self.new ≡ put ROOM self.old (name.now ++ numeral_of value) }
    {
        self.put_lowest(name, 10, decimal_width(value), value);
    }

    // Puts a line that is a number with its name in front.
    pub fn put_line(&mut self, name: &[u8], value: u64)
        ensures { self.new ≡ put ROOM self.old (name.now ++ numeral_of value ++ text "\n") }
    {
        self.put_named(name, value);
        self.put(b"\n");
    }
}

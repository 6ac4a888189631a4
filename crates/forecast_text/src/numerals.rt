// What numbers are put into memory with, for every crate that does: the byte of a digit, and how many there are.
ghost use Rattle.std.specs.Prelude.{◌+◌, ◌%◌, ◌≤◌, ◌≡◌, length, replicate};
ghost use Rattle.sheet.specs.Digits.{byte_of};
ghost use Rattle.sheet.specs.Reader.{over};
ghost use Rattle.forecast_text.specs.Printed.{width_in};
ghost use Rattle.forecast_text.specs.Put.{Put};
ghost use Rattle.forecast_text.specs.Numerals.{lowest, last_digits};

use bits::{BYTE_0, TEN_BELOW_A};

// As many digits as a number may have, in any base from ten to sixteen.
pub(crate) const DIGITS: usize = 20;

// The byte of a number's last hexadecimal digit.
pub fn digit_byte(number: u64) -> u8
    ensures { result ≡ byte_of (number % 16) }
{
    let digit = number % 16;
    if digit < 10 {
        return (BYTE_0 + digit) as u8;
    }
    (TEN_BELOW_A + digit) as u8
}

// How many decimal digits a number has.
pub fn decimal_width(value: u64) -> usize
    ensures value { result ≡ width_in 19 value }
    ensures upper_bound { result ≤ 20 }
{
    if value == 0 {
        1
    } else {
        value.ilog10() as usize + 1
    }
}

// Puts the last `width` digits of a number from a place on, the very last first, and returns the place behind them.
#[inline(always)]
pub(crate) fn put_digits(out: &mut [u8], at: usize, base: u64, width: usize, value: u64) -> usize
    requires room { at + width ≤ length out.old }
    requires base { (2 ≤ base) × (base ≤ 16) }
    ensures { Put at (lowest base width value) out.old out.new result }
{
    let mut rest = value;
    for place in (0..width).rev() {
        out[at + place] = digit_byte(rest % base);
        rest = rest / base;
    }
    at + width
}

// The last `width` digits of a number, in the first of the room: all of it where they spell it.
pub fn digits_of(base: u64, width: usize, value: u64) -> [u8; DIGITS]
    ensures { result ≡ over (last_digits base width value) (replicate 20 0) }
{
    let mut digits = [0; DIGITS];
    put_digits(&mut digits, 0, base.clamp(2, 16), width.min(DIGITS), value);
    digits
}

// A double and its 64 bits, and the digits that bits are written with. All patterns of NaN stand for the one NaN, whose
// pattern is 0x7ff8_0000_0000_0000.
#![tactic(auto)]

ghost use Rattle.std.specs.Prelude.{◌≡◌};
ghost use Rattle.std.specs.Float.Ieee.{of_bits};
ghost use Rattle.std.specs.Float.{binary64};
ghost use Rattle.bits.specs.Digit.{digit_of};
ghost use Rattle.bits.specs.Pattern.{pattern_of};

// The byte of 0, and ten below that of a: digits are told from their bytes by them, and bytes from digits.
pub const BYTE_0: u64 = 48;

pub const TEN_BELOW_A: u64 = 87;

pub fn double(pattern: u64) -> f64
    ensures { result ≡ of_bits binary64 pattern }
{
    if 0x7ff0_0000_0000_0000 < pattern % 0x8000_0000_0000_0000 {
        return 0.0 / 0.0;
    }
    f64::from_bits(pattern)
}

pub fn pattern(x: f64) -> u64
    ensures { result ≡ pattern_of x }
{
    if x != x {
        return 0x7ff8_0000_0000_0000;
    }
    f64::to_bits(x)
}

// The value of a hexadecimal digit in lower case; no other byte has one.
#[tactic(auto, unfolding(crate::specs::Digit::digit_of, words::specs::Loop::pick))]
pub fn digit(byte: u8) -> Option<u64>
    ensures { result ≡ digit_of byte }
{
    match byte {
        b'0'..=b'9' => Some(u64::from(byte) - BYTE_0),
        b'a'..=b'f' => Some(u64::from(byte) - TEN_BELOW_A),
        _ => None,
    }
}

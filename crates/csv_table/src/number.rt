// A double put behind a line in the C standard's hexadecimal form.
ghost use Rattle.std.specs.Prelude.{◌≤◌, ◌<◌, ◌≡◌};
ghost use Rattle.sheet.specs.Digits.{power, digits};
ghost use Rattle.forecast_text.specs.Put.{put};
ghost use Rattle.csv_table.specs.NumberText.{trimmed, fraction_text, exponent_text, magnitude_text, sign_text};
ghost use Rattle.csv_table.specs.NumberText.{number_text};

use bits::pattern;
use forecast_text::texts::Text;

// More bytes than a line has: a record has no more than 826, a header no more than 122.
pub const ROOM: usize = 1024;

// The sign's bit, and the lowest bit of the exponent.
const SIGN: u64 = 0x8000_0000_0000_0000;

const EXPONENT: u64 = 0x0010_0000_0000_0000;

// The exponent that stands for 0, and the one of infinities.
const BIAS: u64 = 1023;

const HIGHEST: u64 = 2047;

// A number, and how many hexadecimal digits it is put with.
#[derive(Clone, Copy)]
struct Digits {
    value: u64,
    width: usize,
}

// The digits of a fraction without the zeros at their end.
fn trim(fraction: u64) -> Digits
    requires { (0 < fraction) × (fraction < 0x0010_0000_0000_0000) }
    ensures { (trimmed 13 fraction ≡ digits 16 result.width result.value)
        × (result.value < power 16 result.width) × (0 < result.width) × (result.width ≤ 13) }
{
    let mut value = fraction;
    let mut width: usize = 13;
    while value % 16 == 0 {
        value = value / 16;
        width -= 1;
    }
    Digits { value, width }
}

// Puts the fraction with its point, or nothing where it is 0.
fn put_fraction(text: &mut Text<ROOM>, fraction: u64)
    requires { fraction < 0x0010_0000_0000_0000 }
    ensures { text.new ≡ put 1024 text.old (fraction_text fraction) }
{
    if fraction == 0 {
        return;
    }
    let kept = trim(fraction);
    text.put(b".");
    text.put_digits(16, kept.width, kept.value);
}

// Puts the exponent with its sign. Inlined, as its callers are, into the loop over a record: that saves a few calls for
// each number.
#[inline(always)]
fn put_exponent(text: &mut Text<ROOM>, exponent: u64)
    requires { exponent < 2048 }
    ensures { text.new ≡ put 1024 text.old (exponent_text exponent) }
{
    if exponent < BIAS {
        text.put_named(b"p-", BIAS - exponent);
    } else {
        text.put_named(b"p+", exponent - BIAS);
    }
}

// Puts a number without its sign.
#[inline(always)]
fn put_magnitude(text: &mut Text<ROOM>, exponent: u64, fraction: u64)
    requires { (exponent < 2048) × (fraction < 0x0010_0000_0000_0000) }
    ensures { text.new ≡ put 1024 text.old (magnitude_text exponent fraction) }
{
    match (exponent, fraction) {
        (HIGHEST, _) => text.put(b"inf"),
        (0, 0) => text.put(b"0x0p+0"),
        (0, _) => {
            text.put(b"0x0");
            put_fraction(text, fraction);
            text.put(b"p-1022");
        }
        _ => {
            text.put(b"0x1");
            put_fraction(text, fraction);
            put_exponent(text, exponent);
        }
    }
}

fn put_sign(text: &mut Text<ROOM>, bits: u64)
    ensures { text.new ≡ put 1024 text.old (sign_text bits) }
{
    if SIGN <= bits {
        text.put(b"-");
    }
}

#[inline(always)]
pub fn put_number(text: &mut Text<ROOM>, x: f64)
    ensures { text.new ≡ put 1024 text.old (number_text x) }
{
    if x != x {
        return text.put(b"nan");
    }
    let bits = pattern(x);
    put_sign(text, bits);
    put_magnitude(text, bits % SIGN / EXPONENT, bits % EXPONENT);
}

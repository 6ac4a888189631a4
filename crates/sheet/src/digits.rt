// Numbers spelled by digits, the first of them the highest.
ghost use Rattle.std.specs.Prelude.{◌≤◌, ◌*◌, ◌≡◌, length};
ghost use Rattle.sheet.specs.Digits.{spelled_of};

use bits::digit;

// The number that the digits of a text spell; no more than sixteen, so that it fits.
pub fn spelled(text: &[u8], base: u64) -> Option<u64>
    requires { (length text.now ≤ 16) × (base ≤ 16) }
    ensures { result ≡ spelled_of base 0 text.now }
{
    let mut value: u64 = 0;
    for byte in text {
        let next = digit(*byte)?;
        if base <= next {
            return None;
        }
        value = value * base + next;
    }
    Some(value)
}

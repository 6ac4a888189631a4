// How a number is written: in which base, and with how many digits.
ghost use Rattle.std.specs.Prelude.{◌≡◌};
ghost use Rattle.sheet.specs.Digits.{width_of, base_of, width_by};

// A decimal has no zero in front; the bits of a float are sixteen hexadecimal digits.
#[derive(Clone, Copy)]
pub enum Notation {
    Decimal,
    Hexadecimal,
}

impl Notation {
    #[tactic(auto, unfolding(crate::specs::Digits::base_of))]
    pub fn base(self) -> u64
        ensures { result ≡ base_of self }
    {
        match self {
            Notation::Decimal => 10,
            Notation::Hexadecimal => 16,
        }
    }

    // How many digits a number is written with.
    #[tactic(auto, unfolding(crate::specs::Digits::width_by))]
    pub fn width(self, value: u64) -> usize
        ensures { result ≡ width_by self value }
    {
        match self {
            Notation::Decimal => decimal_width(value),
            Notation::Hexadecimal => 16,
        }
    }
}

// The least numbers of two, three and more digits.
const LONGER: [u64; 9] = [
    10,
    100,
    1_000,
    10_000,
    100_000,
    1_000_000,
    10_000_000,
    100_000_000,
    1_000_000_000,
];

// How many decimal digits a number has, where it has no more than ten.
fn decimal_width(value: u64) -> usize
    ensures { result ≡ width_of value }
{
    let shorter = LONGER.iter().position(|least| value < *least);
    shorter.unwrap_or(LONGER.len()) + 1
}

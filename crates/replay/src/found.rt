// What came of comparing a case, value by value.
ghost use Rattle.std.specs.Prelude.{◌≡◌};
ghost use Rattle.bits.specs.Pattern.{pattern_of};
ghost use Rattle.replay.specs.Found.{nothing_of, compared_of, number_of, unread_value_of, held_against_of, of_texts};

use crate::word::ReadError;
use bits::pattern;
use std::num::wrapping_add_u64;

// A value that differs: its place, what it is, and what it was to be.
#[derive(Clone, Copy)]
pub struct Difference {
    pub place: u64,
    pub gave: u64,
    pub wanted: u64,
}

// How many values were compared, how many of them differ, the first that does, and whether what a value was to be
// could not be read.
#[derive(Clone, Copy)]
pub struct Found {
    pub values: u64,
    pub differ: u64,
    pub first: Option<Difference>,
    pub malformed: bool,
}

impl Found {
    pub fn nothing() -> Found
        ensures { result ≡ nothing_of }
    {
        Found {
            values: 0,
            differ: 0,
            first: None,
            malformed: false,
        }
    }

    // One more value, which is `gave` and was to be `wanted`.
    #[tactic(auto, unfolding(words::specs::Loop::pick))]
    pub fn compared(mut self, gave: u64, wanted: u64) -> Found
        ensures { result ≡ compared_of self gave wanted }
    {
        let place = self.values;
        self.values = wrapping_add_u64(place, 1);
        if gave != wanted {
            self.differ = wrapping_add_u64(self.differ, 1);
            self.first = self.first.or(Some(Difference {
                place,
                gave,
                wanted,
            }));
        }
        self
    }

    // The same for a double and its pattern.
    pub fn double(self, gave: f64, wanted: u64) -> Found
        ensures { result ≡ compared_of self (pattern_of gave) wanted }
    {
        self.compared(pattern(gave), wanted)
    }

    // The same for two truths.
    #[tactic(auto, unfolding(words::specs::Loop::pick))]
    pub fn truth(self, gave: bool, wanted: bool) -> Found
        ensures { result ≡ compared_of self (number_of gave) (number_of wanted) }
    {
        self.compared(u64::from(gave), u64::from(wanted))
    }

    // The same for a value and what was read of it.
    pub fn held_against(mut self, gave: u64, read: Result<u64, ReadError>) -> Found
        ensures { result ≡ held_against_of self gave read }
    {
        match read {
            Ok(wanted) => self.compared(gave, wanted),
            Err(_) => {
                self.malformed = true;
                self
            }
        }
    }

    // What comes of holding a text against another: first their lengths, then the bytes.
    pub fn of_texts(gave: &[u8], wanted: &[u8]) -> Found
        ensures { result ≡ of_texts gave.now wanted.now }
    {
        let mut found = Found::nothing().compared(gave.len() as u64, wanted.len() as u64);
        for (gave, wanted) in gave.iter().zip(wanted) {
            found = found.compared(u64::from(*gave), u64::from(*wanted));
        }
        found
    }
}

// How many cases of each row agree and differ.
ghost use Rattle.std.specs.Prelude.{◌≡◌};
ghost use Rattle.replay.specs.Count.{none_of, agreed_of, differed_of, unread_of};

use std::num::wrapping_add_u64;

// More rows than a summary has.
pub const ROWS: usize = 32;

// How many cases of one row agree, and how many differ.
#[derive(Clone, Copy)]
pub struct Row {
    pub agree: u64,
    pub differ: u64,
}

// `seen` counts all cases, `malformed` those that could not be read, and `missed` these and those that differ.
#[derive(Clone, Copy)]
pub struct Counts {
    pub rows: [Row; ROWS],
    pub malformed: u64,
    pub seen: u64,
    pub missed: u64,
}

impl Counts {
    pub fn none() -> Counts
        ensures { result ≡ none_of }
    {
        Counts {
            rows: [Row {
                agree: 0,
                differ: 0,
            }; ROWS],
            malformed: 0,
            seen: 0,
            missed: 0,
        }
    }

    // One more case of a row. A row that is none makes the case malformed, here and below.
    #[tactic(auto, unfolding(words::specs::Loop::pick))]
    pub fn agreed(mut self, row: usize) -> Counts
        ensures { result ≡ agreed_of self row }
    {
        if ROWS <= row {
            return self.unread();
        }
        let before = self.rows[row];
        self.rows[row] = Row {
            agree: wrapping_add_u64(before.agree, 1),
            ..before
        };
        self.seen = wrapping_add_u64(self.seen, 1);
        self
    }

    #[tactic(auto, unfolding(words::specs::Loop::pick))]
    pub fn differed(mut self, row: usize) -> Counts
        ensures { result ≡ differed_of self row }
    {
        if ROWS <= row {
            return self.unread();
        }
        let before = self.rows[row];
        self.rows[row] = Row {
            differ: wrapping_add_u64(before.differ, 1),
            ..before
        };
        self.missed = wrapping_add_u64(self.missed, 1);
        self.seen = wrapping_add_u64(self.seen, 1);
        self
    }

    pub fn unread(mut self) -> Counts
        ensures { result ≡ unread_of self }
    {
        self.malformed = wrapping_add_u64(self.malformed, 1);
        self.missed = wrapping_add_u64(self.missed, 1);
        self.seen = wrapping_add_u64(self.seen, 1);
        self
    }
}

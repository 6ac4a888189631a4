// What is told of the cases: the first that are malformed or differ, and a summary, a line for each row.
ghost use Rattle.std.specs.Prelude.{◌≡◌};
ghost use Rattle.replay.specs.Count.{unread_of, differed_of, counted_of};

use crate::count::Counts;
use crate::found::{Difference, Found};
use crate::out::Out;

// How many of the cases that do not agree are told.
pub const MOST_TOLD: u64 = 8;

// Where cases are told, and the names of their rows.
#[derive(Clone, Copy)]
pub struct Teller<'a> {
    pub out: &'a Out,
    pub names: &'a [&'a [u8]],
}

impl<'a> Teller<'a> {
    // A line for each row that has a name, and one for the cases that could not be read.
    // It has no result and is lent nothing to write, and what goes to standard output no contract can say.
    pub fn summary(self, counts: Counts)
        ensures { result ≡ tt }
    {
        for (name, row) in self.names.iter().zip(&counts.rows) {
            let agree = row.agree;
            let differ = row.differ;
            self.out.write(name);
            self.out
                .print(format_args!(" {agree} agree {differ} differ\n"));
        }
        let malformed = counts.malformed;
        self.out.print(format_args!("malformed {malformed}\n"));
    }

    // A case that could not be read, told if it is among the first that do not agree.
    pub fn malformed(self, counts: Counts) -> Counts
        ensures { result ≡ unread_of counts }
    {
        if counts.missed < MOST_TOLD {
            let seen = counts.seen;
            self.out.print(format_args!("malformed case {seen}\n"));
        }
        counts.unread()
    }

    fn differing(self, counts: Counts, row: usize, first: Difference) -> Counts
        ensures { result ≡ differed_of counts row }
    {
        if counts.missed < MOST_TOLD {
            self.out.write(self.names.get(row).copied().unwrap_or(b""));
            let seen = counts.seen;
            let Difference {
                place,
                gave,
                wanted,
            } = first;
            self.out.print(format_args!(
                " case {seen} value {place} gave {gave:016x} wanted {wanted:016x}\n"
            ));
        }
        counts.differed(row)
    }

    // The counts after one case more of a row, with what was found of it.
    #[tactic(auto, unfolding(words::specs::Loop::pick))]
    pub fn counted(self, counts: Counts, row: usize, found: Found) -> Counts
        ensures { result ≡ counted_of counts row found }
    {
        if found.malformed {
            return self.malformed(counts);
        }
        match found.first {
            None => counts.agreed(row),
            Some(first) => self.differing(counts, row, first),
        }
    }
}

// What status lines count, and how many of them end with each status. Sums of words wrap.
ghost use Rattle.std.specs.Prelude.{◌≡◌};
ghost use Rattle.night_totals.specs.Counts.{counts_within, added_counts, added_runs, raised_of, counted_runs};

use std::num::wrapping_add_u64;

// The six counts of a line, or their sums.
#[derive(Clone, Copy)]
pub struct Counts {
    pub accepted: u64,
    pub rejected: u64,
    pub total: u64,
    pub ode: u64,
    pub jac: u64,
    pub lu: u64,
}

impl Counts {
    pub fn added(self, other: Counts) -> Counts
        ensures { result ≡ added_counts self other }
    {
        Counts {
            accepted: wrapping_add_u64(self.accepted, other.accepted),
            rejected: wrapping_add_u64(self.rejected, other.rejected),
            total: wrapping_add_u64(self.total, other.total),
            ode: wrapping_add_u64(self.ode, other.ode),
            jac: wrapping_add_u64(self.jac, other.jac),
            lu: wrapping_add_u64(self.lu, other.lu),
        }
    }

    // Whether each is one of `most` at most.
    #[tactic(auto, unfolding(crate::specs::Counts::counts_within))]
    pub fn within(self, most: u64) -> bool
        ensures { result ≡ counts_within self most }
    {
        self.accepted <= most
            && self.rejected <= most
            && self.total <= most
            && self.ode <= most
            && self.jac <= most
            && self.lu <= most
    }
}

// How many lines have each status.
#[derive(Clone, Copy)]
pub struct Runs {
    pub status0: u64,
    pub status1: u64,
    pub status2: u64,
    pub status3: u64,
    pub status5: u64,
    pub status7: u64,
}

#[tactic(auto, unfolding(crate::specs::Counts::raised_of, words::specs::Loop::pick))]
fn raised(runs: u64, status: u64, of: u64) -> u64
    ensures { result ≡ raised_of runs status of }
{
    if status == of {
        wrapping_add_u64(runs, 1)
    } else {
        runs
    }
}

impl Runs {
    // Those of the lines of both.
    pub fn joined(self, other: Runs) -> Runs
        ensures { result ≡ added_runs self other }
    {
        Runs {
            status0: wrapping_add_u64(self.status0, other.status0),
            status1: wrapping_add_u64(self.status1, other.status1),
            status2: wrapping_add_u64(self.status2, other.status2),
            status3: wrapping_add_u64(self.status3, other.status3),
            status5: wrapping_add_u64(self.status5, other.status5),
            status7: wrapping_add_u64(self.status7, other.status7),
        }
    }

    // One line more, with a status.
    pub fn counted(self, status: u64) -> Runs
        ensures { result ≡ counted_runs self status }
    {
        Runs {
            status0: raised(self.status0, status, 0),
            status1: raised(self.status1, status, 1),
            status2: raised(self.status2, status, 2),
            status3: raised(self.status3, status, 3),
            status5: raised(self.status5, status, 5),
            status7: raised(self.status7, status, 7),
        }
    }
}

// A line that has come whole: what it says, and whether `decay` prints it.
ghost use Rattle.std.specs.Prelude.{◌≡◌};
ghost use Rattle.night_totals.specs.Entries.{known_status, fit_entry};
ghost use Rattle.night_totals.specs.Night.{entry_from};

use crate::counts::Counts;
use crate::entry::{Entry, MOST_COUNT};

impl From<[u64; 16]> for Entry {
    ghost from_gives = { λ values entry. entry ≡ entry_from values };

    fn from(values: [u64; 16]) -> Entry {
        Entry {
            status: values[0],
            counts: Counts {
                accepted: values[1],
                rejected: values[2],
                total: values[3],
                ode: values[4],
                jac: values[5],
                lu: values[6],
            },
        }
    }
}

// The statuses that a run can end with.
#[tactic(auto, unfolding(crate::specs::Entries::known_status))]
fn known(status: u64) -> bool
    ensures { result ≡ known_status status }
{
    status <= 3 || status == 5 || status == 7
}

#[tactic(auto, unfolding(crate::specs::Entries::fit_entry))]
pub fn fit(entry: Entry) -> bool
    ensures { result ≡ fit_entry entry }
{
    known(entry.status) && entry.counts.within(MOST_COUNT)
}

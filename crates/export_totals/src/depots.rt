// Two totals over the border, joined.
ghost use Rattle.std.specs.Prelude.{◌≡◌};
ghost use Rattle.night_join.specs.Join.{join_of};
ghost use Rattle.export_totals.specs.Record.{totals_from};
ghost use Rattle.export_totals.specs.Border.{totals_joined, joined_left};

use crate::record::{totals_given, totals_words};
use night_join::join;
use night_join::joining::JoinError;

// Joins two totals, the second's lines behind the first's: 0 and the totals, 28 or 26.
#[unsafe(no_mangle)]
pub extern "C" fn elchepur_totals_join(
    first: &[u64; 15],
    second: &[u64; 15],
    joined: &mut [u64; 15],
) -> u64
    ensures { totals_joined result joined.new
        ≡ joined_left (join_of (totals_from first.now) (totals_from second.now))
        joined.old }
{
    match join(totals_given(first), totals_given(second)) {
        Ok(all) => {
            *joined = totals_words(all);
            0
        }
        Err(JoinError::Unfit) => 28,
        Err(JoinError::TooMany) => 26,
    }
}

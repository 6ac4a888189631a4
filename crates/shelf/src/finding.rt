// The newest kept step that holds a point, by the ends alone.
ghost use Rattle.std.specs.Prelude.{◌*◌, ◌≤◌, ◌≡◌, length};
ghost use Rattle.shelf.specs.Shelf.{most_kept, last_place, holds};
ghost use Rattle.shelf.specs.Finding.{found_from};

use crate::places::place_before;
use dense::bounds;

// Whether x lies in the step from xold by h, its ends included. A NaN passes no test.
fn within(x: f64, xold: f64, h: f64) -> bool
    ensures { result ≡ holds x xold h }
{
    let reach = bounds(xold, h);
    reach.left <= x && x <= reach.right
}

// Goes back from the newest step, one by one.
pub fn find(x: f64, ends: &[f64], place: usize, steps: usize) -> Option<usize>
    requires { (length ends.now ≡ most_kept * 2) × (place ≤ last_place) }
    ensures { result ≡ found_from x ends.now place steps }
{
    let mut at = place;
    for _ in 0..steps {
        at = place_before(at);
        if within(x, ends[2 * at], ends[2 * at + 1]) {
            return Some(at);
        }
    }
    None
}

// The test of pivots that this port adds (01, number 18), for whoever holds pivots and an order: a solve, and an
// admission of lent memory.
ghost use Rattle.std.specs.Prelude.{◌≡◌, ◌≤◌, false, length};
ghost use Rattle.words.specs.Loop.{loop};
ghost use Rattle.state.specs.Pivots.{stray_at, stray};

// Whether one of the first `count` pivots is n or more.
fn stray_among(n: usize, ip: &[usize], count: usize) -> bool
    requires { count ≤ length ip.now }
    ensures { result ≡ loop (stray_at n ip.now) 0 count false }
{
    let mut found = false;
    for k in 0..count {
        found = found | (n <= ip[k]);
    }
    found
}

// Whether one of the first n - 1 pivots is n or more, so that it is no row of an n by n matrix. Where the list is
// shorter, all of it is looked at; the order 0 has no pivots.
pub fn stray_pivot(n: usize, ip: &[usize]) -> bool
    ensures { result ≡ stray n ip.now }
{
    if n == 0 {
        return false;
    }
    let nm1 = n - 1;
    if nm1 <= ip.len() {
        return stray_among(n, ip, nm1);
    }
    stray_among(n, ip, ip.len())
}

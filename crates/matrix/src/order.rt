// The orders of the systems that the routines take.
ghost use Rattle.std.specs.Prelude.{◌≡◌, ◌&&◌, leb};

// The largest order.
const LARGEST: usize = 32;

pub fn is_order(n: usize) -> bool
    ensures { result ≡ (leb 1 n && leb n 32) }
{
    (1 <= n) & (n <= LARGEST)
}

// Standard output, for the programs whose answer fits a piece.
ghost use Rattle.std.specs.Prelude.{◌≡◌};

use crate::reading::PIECE;
use replay::out::Out;

// What was put into an array that was lent to be written; of what lies behind a reference the length is known.
pub fn write_first(to: &Out, out: &[u8; PIECE], count: usize)
    ensures { result ≡ tt }
{
    let bytes: &[u8] = out;
    to.write(&bytes[0..count.min(bytes.len())]);
}

// What is told of an input that can't be read.
pub fn unreadable(to: &Out)
    ensures { result ≡ tt }
{
    to.write(b"unreadable\n");
}

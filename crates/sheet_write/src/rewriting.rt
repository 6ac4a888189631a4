// A sheet in, and the same sheet out through model and writer; or the line that says why there is none.
ghost use Rattle.std.specs.Prelude.{◌≤◌, ◌≡◌, length, Err};
ghost use Rattle.sheet.specs.Reader.{over, read_of};
ghost use Rattle.forecast_text.specs.Printed.{printed_of};
ghost use Rattle.forecast_text.specs.Unread.{unread};
ghost use Rattle.sheet_write.specs.Rewritten.{rewritten_of, count_for};
ghost use Rattle.sheet_write.specs.Writer.{answer_of, bytes_left};

use crate::writing::write;
use forecast_text::print;
use sheet::read;
use sheet::sheet::{Heading, MOST_BYTES, SheetError};

// How many bytes were written; of a refusal none.
fn put_model(
    heading: Heading,
    amounts: &[u64; 32],
    rates: &[u64; 64],
    species: &[usize; 256],
    out: &mut [u8],
) -> usize
    ensures value { result ≡ count_for (answer_of heading amounts.now rates.now
        species.now out.old) }
    ensures out_after { out.new ≡ bytes_left heading amounts.now rates.now
        species.now out.old }
{
    write(heading, amounts, rates, species, out).unwrap_or(0)
}

// What is printed of a sheet that can't be read, over the first bytes.
fn put_refusal(error: SheetError, out: &mut [u8]) -> usize
    requires { 1024 ≤ length out.old }
    ensures out_after { out.new ≡ over (printed_of (Err (unread error))) out.old }
    ensures value { result ≡ length (printed_of (Err (unread error))) }
{
    let mut line = [0u8; 1024];
    let count = print(Err(error.into()), &mut line);
    out[..count].copy_from_slice(&line[..count]);
    count
}

// Puts the sheet that was read, or the line of its refusal, over the first bytes of `out`, and answers how many bytes
// these are. The others stay as they were.
pub fn rewrite(bytes: &[u8], out: &mut [u8; MOST_BYTES]) -> usize
    ensures out_after { out.new ≡ over (rewritten_of (read_of bytes.now)) out.old }
    ensures value { result ≡ length (rewritten_of (read_of bytes.now)) }
{
    let mut amounts = [0u64; 32];
    let mut rates = [0u64; 64];
    let mut species = [0usize; 256];
    match read(bytes, &mut amounts, &mut rates, &mut species) {
        Ok(heading) => put_model(heading, &amounts, &rates, &species, out),
        Err(error) => put_refusal(error, out),
    }
}

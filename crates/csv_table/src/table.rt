// The two functions: a line is made in room of its own, so that one that doesn't fit writes nothing.
ghost use Rattle.std.specs.Prelude.{◌≡◌, ◌&&◌, leb};
ghost use Rattle.csv_table.specs.Table.{export, line_of, header_of, record_of};

use crate::answers::ExportError;
use crate::lines::{put_header_line, put_record_line};
use crate::number::ROOM;
use forecast_text::texts::Text;

// The most amounts that there are.
const MOST: usize = 32;

// Whether there are 1 to 32 amounts.
fn is_order(n: usize) -> bool
    ensures { result ≡ (leb 1 n && leb n 32) }
{
    matches!(n, 1..=MOST)
}

// A line over the first bytes of a buffer, where it fits.
fn put_line(line: &Text<ROOM>, out: &mut [u8]) -> Result<usize, ExportError>
    ensures { export result out.new ≡ line_of line.now out.old }
{
    if line.len() <= out.len() {
        line.copy_over(out);
        Ok(line.len())
    } else {
        Err(ExportError::Room)
    }
}

// The header of a table with n amounts. What stands behind it in the buffer stays.
pub fn put_header(n: usize, out: &mut [u8]) -> Result<usize, ExportError>
    ensures { export result out.new ≡ header_of n out.old }
{
    if !is_order(n) {
        return Err(ExportError::Order);
    }
    let mut line = Text::new();
    put_header_line(&mut line, n);
    put_line(&line, out)
}

// The record of a point. What stands behind it in the buffer stays.
pub fn put_record(x: f64, amounts: &[f64], out: &mut [u8]) -> Result<usize, ExportError>
    ensures { export result out.new ≡ record_of x amounts.now out.old }
{
    if !is_order(amounts.len()) {
        return Err(ExportError::Order);
    }
    let mut line = Text::new();
    put_record_line(&mut line, x, amounts);
    put_line(&line, out)
}

// The two lines of a table, with document 02's number as the answer and the line's length beside it.
ghost use Rattle.std.specs.Prelude.{◌≡◌};
ghost use Rattle.csv_table.specs.Table.{header_of, record_of};
ghost use Rattle.export_csv.specs.Told.{told, told_of, exported_length};
ghost use Rattle.csv_table.specs.Table.{exported_number};

use csv_table::answers::ExportError;
use csv_table::table::{put_header, put_record};

// Answers document 02's number. A refusal leaves the length as it was.
fn tell(answer: Result<usize, ExportError>, written: &mut usize) -> u64
    ensures number { result ≡ exported_number answer }
    ensures length { written.new ≡ exported_length answer written.old }
{
    *written = answer.unwrap_or(*written);
    match answer {
        Ok(_) => 0,
        Err(ExportError::Order) => 1,
        Err(ExportError::Room) => 24,
    }
}

// Writes the header of a table with n amounts over the first bytes of `out`, and how many they are to `written`.
#[unsafe(no_mangle)]
pub extern "C" fn elchepur_csv_header(n: usize, out: &mut [u8], written: &mut usize) -> u64
    ensures { told result out.new written.new
        ≡ told_of (header_of n out.old) written.old }
{
    tell(put_header(n, out), written)
}

// Writes the record of a point over the first bytes of `out`, and how many they are to `written`.
#[unsafe(no_mangle)]
pub extern "C" fn elchepur_csv_record(
    x: f64,
    amounts: &[f64],
    out: &mut [u8],
    written: &mut usize,
) -> u64
    ensures { told result out.new written.new
        ≡ told_of (record_of x amounts.now out.old) written.old }
{
    tell(put_record(x, amounts, out), written)
}

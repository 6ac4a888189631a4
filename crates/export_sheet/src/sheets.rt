// A sheet in and its model out, and the other way.
ghost use Rattle.std.specs.Prelude.{◌≡◌};
ghost use Rattle.sheet.specs.Reader.{read_of};
ghost use Rattle.export_sheet.specs.Border.{sheet_read, read_left, sheet_written, written_left};

use crate::heading::{heading_from, put_counts, put_settings};
use sheet::read;
use sheet::sheet::SheetError;
use sheet_write::write;
use sheet_write::writing::{WritingError, writing_number};

// The greatest number of a rule.
const LAST_RULE: u64 = 1;

// Reads a sheet: six settings, how many species and reactions there are, the amounts, the rates, and four species for
// each reaction. Answers 0, or refuses with 21 or with 20 and the line, and writes nothing else then.
#[unsafe(no_mangle)]
pub extern "C" fn elchepur_read_sheet(
    sheet: &[u8],
    settings: &mut [u64; 6],
    counts: &mut [usize; 2],
    amounts: &mut [u64; 32],
    rates: &mut [u64; 64],
    species: &mut [usize; 256],
    line: &mut usize,
) -> u64
    ensures { sheet_read result settings.new counts.new amounts.new rates.new
        species.new line.new
        ≡ read_left (read_of sheet.now) settings.old counts.old amounts.old
        rates.old species.old line.old }
{
    match read(sheet, amounts, rates, species) {
        Ok(heading) => {
            put_settings(heading, settings);
            put_counts(heading, counts);
            0
        }
        Err(SheetError::Malformed(first)) => {
            *line = first;
            20
        }
        Err(SheetError::TooLong) => 21,
    }
}

// Writes the sheet of a model over the first bytes of `sheet` and tells its length. Answers 0, or refuses with 23, then
// 24, and writes nothing then.
#[unsafe(no_mangle)]
pub extern "C" fn elchepur_write_sheet(
    settings: &[u64; 6],
    counts: &[usize; 2],
    amounts: &[u64; 32],
    rates: &[u64; 64],
    species: &[usize; 256],
    sheet: &mut [u8],
    length: &mut usize,
) -> u64
    ensures { sheet_written result sheet.new length.new
        ≡ written_left settings.now counts.now amounts.now rates.now
        species.now sheet.old length.old }
{
    let rule = settings[5];
    if LAST_RULE < rule {
        return writing_number(Err(WritingError::NoModel));
    }
    let answer = write(
        heading_from(settings, counts),
        amounts,
        rates,
        species,
        sheet,
    );
    match answer {
        Ok(count) => {
            *length = count;
            writing_number(answer)
        }
        Err(_) => writing_number(answer),
    }
}

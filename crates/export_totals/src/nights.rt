// A night over the border: begun, fed, told and printed. Its record goes in and out as 37 words.
ghost use Rattle.std.specs.Prelude.{◌≡◌, length};
ghost use Rattle.sheet.specs.Reader.{over};
ghost use Rattle.night_totals.specs.Night.{start_of, fed_of, told_of};
ghost use Rattle.night_totals.specs.Printed.{printed_of};
ghost use Rattle.export_totals.specs.Record.{words_of, night_from};
ghost use Rattle.export_totals.specs.Border.{totals_told, told_left};

use crate::record::{night_from, totals_words, words_of};
use night_totals::night::NightError;
use night_totals::{fed, print, start, told};

// The record of a night of which nothing has come.
#[unsafe(no_mangle)]
pub extern "C" fn elchepur_totals_start(night: &mut [u64; 37])
    ensures { night.new ≡ words_of start_of }
{
    *night = words_of(start());
}

// Takes a piece of the lines.
#[unsafe(no_mangle)]
pub extern "C" fn elchepur_totals_fed(night: &mut [u64; 37], piece: &[u8])
    ensures { night.new ≡ words_of (fed_of (night_from night.old) piece.now) }
{
    let next = fed(night_from(night), piece);
    *night = words_of(next);
}

// What became of all that was taken, where nothing more comes: 0 and the totals, 20 and the wrong line, or 26.
#[unsafe(no_mangle)]
pub extern "C" fn elchepur_totals_told(
    night: &[u64; 37],
    totals: &mut [u64; 15],
    line: &mut u64,
) -> u64
    ensures { totals_told result totals.new line.new
        ≡ told_left (told_of (night_from night.now)) totals.old line.old }
{
    match told(night_from(night)) {
        Ok(all) => {
            *totals = totals_words(all);
            0
        }
        Err(NightError::Malformed(wrong)) => {
            *line = wrong;
            20
        }
        Err(NightError::TooMany) => 26,
    }
}

// Puts what `totals` prints of it over the first bytes of `printed` and answers how many they are. The others stay.
#[unsafe(no_mangle)]
pub extern "C" fn elchepur_totals_printed(night: &[u64; 37], printed: &mut [u8; 4096]) -> u64
    ensures printed_after { printed.new
        ≡ over (printed_of (told_of (night_from night.now))) printed.old }
    ensures value { result ≡ length (printed_of (told_of (night_from night.now))) }
{
    print(told(night_from(night)), printed) as u64
}

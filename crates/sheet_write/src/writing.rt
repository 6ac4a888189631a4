// A sheet is put together first in room of the writer's own. Only what fits is put into lent memory.
ghost use Rattle.std.specs.Prelude.{◌*◌, ◌≡◌, length, get_or};
ghost use Rattle.sheet.specs.Sheet.{written};
ghost use Rattle.sheet.specs.Reader.{model_from};
ghost use Rattle.sheet_write.specs.Writer.{Fits, answer_for, left_for, answer_of, bytes_left};
ghost use Rattle.sheet_write.specs.Writer.{number_of};

use crate::listing::{list_reactions, settings_of};
use crate::numbers::{fits, put_numbers};
use forecast_text::texts::Text;
use sheet::kind::Phase;
use sheet::sheet::{Heading, MOST_BYTES};

// Why no sheet was written.
#[derive(Clone, Copy)]
pub enum WritingError {
    // What stands in memory is no model of 01.
    NoModel,
    // The sheet is longer than the memory.
    TooShort,
}

// Puts the four parts of a sheet one behind the other, each of whose numbers is of its kind. No sheet is longer than
// the room.
fn sheet_of(settings: &[u64], amounts: &[u64], count: &[u64], listed: &[u64]) -> Text<MOST_BYTES>
    requires lengths { (length settings.now ≡ 8) × (length amounts.now ≡ get_or settings.now 7 0)
        × (length count.now ≡ 1) × (length listed.now ≡ get_or count.now 0 0 * 5) }
    requires fits { Fits settings.now amounts.now count.now listed.now }
    ensures { result ≡ written (model_from settings.now amounts.now count.now listed.now) }
{
    let mut sheet = Text::new();
    put_numbers(&mut sheet, Phase::Settings, 0, settings);
    put_numbers(&mut sheet, Phase::Amounts, 0, amounts);
    put_numbers(&mut sheet, Phase::Count, 0, count);
    put_numbers(&mut sheet, Phase::Reactions, settings[7], listed);
    sheet
}

// Writes a sheet where it fits.
#[tactic(auto, unfolding(crate::specs::Writer::answer_for, crate::specs::Writer::left_for, words::specs::Loop::pick))]
fn write_text(sheet: &Text<MOST_BYTES>, out: &mut [u8]) -> Result<usize, WritingError>
    ensures value { result ≡ answer_for sheet.now out.old }
    ensures out_after { out.new ≡ left_for sheet.now out.old }
{
    if out.len() < sheet.len() {
        return Err(WritingError::TooShort);
    }
    sheet.copy_over(out);
    Ok(sheet.len())
}

// Writes the sheet of the model that stands in memory over the first bytes of `out`, and tells how many they are; what
// stands behind them stays. A refusal writes nothing.
pub fn write(
    heading: Heading,
    amounts: &[u64; 32],
    rates: &[u64; 64],
    species: &[usize; 256],
    out: &mut [u8],
) -> Result<usize, WritingError>
    ensures value { result ≡ answer_of heading amounts.now rates.now species.now
        out.old }
    ensures out_after { out.new ≡ bytes_left heading amounts.now rates.now
        species.now out.old }
{
    let settings = settings_of(heading);
    let count = [heading.reactions as u64];
    fits(Phase::Settings, 0, &settings)?;
    fits(Phase::Count, 0, &count)?;
    let given = &amounts[..heading.species];
    fits(Phase::Amounts, 0, given)?;
    let mut room = [0u64; 320];
    list_reactions(rates, species, heading.reactions, &mut room);
    let listed = &room[..heading.reactions * 5];
    fits(Phase::Reactions, settings[7], listed)?;
    write_text(&sheet_of(&settings, given, &count, listed), out)
}

// The number of a refusal; 0 of a sheet that was written.
pub fn writing_number(writing: Result<usize, WritingError>) -> u64
    ensures { result ≡ number_of writing }
{
    match writing {
        Ok(_) => 0,
        Err(WritingError::NoModel) => 23,
        Err(WritingError::TooShort) => 24,
    }
}

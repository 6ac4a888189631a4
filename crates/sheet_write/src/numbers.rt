// The numbers of a part of a sheet: tested by their kinds, and put one after the other, each with its mark.
ghost use Rattle.std.specs.Prelude.{◌≤◌, ◌<◌, ◌≡◌, [], ◌∷◌, ◌++◌};
ghost use Rattle.sheet.specs.Digits.{power, base_of, width_by};
ghost use Rattle.sheet.specs.Kinds.{kind_of};
ghost use Rattle.sheet.specs.Writes.{spell_of, writes, Fit};
ghost use Rattle.forecast_text.specs.Put.{put};
ghost use Rattle.sheet_write.specs.Writer.{fit_of, tested};

use crate::writing::WritingError;
use forecast_text::texts::Text;
use sheet::kind::{Kind, Phase, kind_at};
use sheet::sheet::MOST_BYTES;
use sheet::spelling::Notation;

// Each number is of its kind, or there is no model.
pub fn fits(phase: Phase, species: u64, values: &[u64]) -> Result<(), WritingError>
    ensures { result ≡ tested (fit_of (kind_of phase species) 0 values.now) }
{
    for (i, value) in values.iter().enumerate() {
        let kind = kind_at(phase, species, i);
        if *value < kind.low || kind.high < *value {
            return Err(WritingError::NoModel);
        }
    }
    Ok(())
}

// A number with its mark behind it.
fn put_number(sheet: &mut Text<MOST_BYTES>, kind: Kind, value: u64)
    requires { value < power (base_of kind.notation) (width_by kind.notation value) }
    ensures { sheet.new ≡ put 4096 sheet.old (spell_of kind value ++ (kind.mark ∷ [])) }
{
    match kind.notation {
        Notation::Decimal => sheet.put_number(value),
        Notation::Hexadecimal => sheet.put_hex(value),
    }
    sheet.put(&[kind.mark]);
}

// The numbers of a part, each of its kind.
pub fn put_numbers(sheet: &mut Text<MOST_BYTES>, phase: Phase, species: u64, values: &[u64])
    requires species { species ≤ 32 }
    requires fit { Fit (kind_of phase species) 0 values.now }
    ensures { sheet.new ≡ put 4096 sheet.old (writes (kind_of phase species) 0 values.now) }
{
    for (i, value) in values.iter().enumerate() {
        put_number(sheet, kind_at(phase, species, i), *value);
    }
}

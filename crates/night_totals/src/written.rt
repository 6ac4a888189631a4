// A text of a form.
ghost use Rattle.std.specs.Prelude.{◌≡◌, ◌≤◌, length, slice_index};
ghost use Rattle.forecast_text.specs.Put.{put};
ghost use Rattle.night_totals.specs.Form.{spelt};

use crate::form::SLOT;
use forecast_text::texts::Text;

// As many bytes as the longest of what is printed: 138 of a form, where 15 are numbers of at most 20 digits.
pub const ROOM: usize = 423;

fn value_at(values: [u64; 16], place: usize) -> u64
    ensures { result ≡ slice_index values place }
{
    if place < 16 { values[place] } else { 0 }
}

// Puts the form with numbers in place of its slots. What stands in front of a slot is put in one.
pub fn put_form(text: &mut Text<ROOM>, form: &[u8], values: [u64; 16])
    requires { length form.now ≤ 200 }
    ensures { text.new ≡ put 423 text.old (spelt form.now 0 values) }
{
    let mut from = 0;
    let mut numbers = 0;
    for (at, byte) in form.iter().enumerate() {
        if *byte == SLOT {
            text.put_named(&form[from..at], value_at(values, numbers));
            from = at + 1;
            numbers += 1;
        }
    }
    text.put(&form[from..]);
}

// The lines of a table, put together in room that is long enough for each.
ghost use Rattle.std.specs.Prelude.{◌≤◌, ◌≡◌};
ghost use Rattle.forecast_text.specs.Put.{put};
ghost use Rattle.csv_table.specs.Table.{names_text, header_text, amounts_text, record_text};

use crate::number::{ROOM, put_number};
use forecast_text::texts::Text;

// The names of n columns.
fn put_names(text: &mut Text<ROOM>, n: usize)
    requires { n ≤ 32 }
    ensures { text.new ≡ put 1024 text.old (names_text n) }
{
    for k in 0..n {
        text.put_named(b",y", k as u64 + 1);
    }
}

// No more than 122 bytes.
pub fn put_header_line(text: &mut Text<ROOM>, n: usize)
    requires { n ≤ 32 }
    ensures { text.new ≡ put 1024 text.old (header_text n) }
{
    text.put(b"x");
    put_names(text, n);
    text.put(b"\r\n");
}

// The amounts, each with a comma in front.
fn put_amounts(text: &mut Text<ROOM>, amounts: &[f64])
    ensures { text.new ≡ put 1024 text.old (amounts_text amounts.now) }
{
    for amount in amounts {
        text.put(b",");
        put_number(text, *amount);
    }
}

// No more than 826 bytes, of 32 amounts.
pub fn put_record_line(text: &mut Text<ROOM>, x: f64, amounts: &[f64])
    ensures { text.new ≡ put 1024 text.old (record_text x amounts.now) }
{
    put_number(text, x);
    put_amounts(text, amounts);
    text.put(b"\r\n");
}

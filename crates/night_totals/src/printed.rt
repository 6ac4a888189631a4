// What is printed of a night.
ghost use Rattle.std.specs.Prelude.{◌≡◌, ◌≤◌, length, Ok, Err};
ghost use Rattle.sheet.specs.Reader.{over};
ghost use Rattle.forecast_text.specs.Put.{put};
ghost use Rattle.night_totals.specs.Printed.{totals_numbers, totals_from, printed_of};

use crate::counts::{Counts, Runs};
use crate::night::NightError;
use crate::totals::Totals;
use crate::written::put_form;
use forecast_text::texts::Text;

// As many bytes as the longest refusal: eleven, a number of at most 20 digits, and LF.
const REFUSAL: usize = 32;

// The form of printed totals.
pub const TOTALS_FORM: &[u8; 138] =
    b"lines #\nstatus 0 #\nstatus 1 #\nstatus 2 #\nstatus 3 #\nstatus 5 #\nstatus 7 #\naccepted #\nrejected #\n\
    total #\node #\njac #\nlu #\nlargest # line #\n";

impl From<Totals> for [u64; 16] {
    ghost from_gives = { λ totals numbers. numbers ≡ totals_numbers totals };

    fn from(totals: Totals) -> [u64; 16] {
        [
            totals.lines,
            totals.runs.status0,
            totals.runs.status1,
            totals.runs.status2,
            totals.runs.status3,
            totals.runs.status5,
            totals.runs.status7,
            totals.counts.accepted,
            totals.counts.rejected,
            totals.counts.total,
            totals.counts.ode,
            totals.counts.jac,
            totals.counts.lu,
            totals.largest,
            totals.place,
            0,
        ]
    }
}

impl From<[u64; 16]> for Totals {
    ghost from_gives = { λ numbers totals. totals ≡ totals_from numbers };

    fn from(numbers: [u64; 16]) -> Totals {
        Totals {
            lines: numbers[0],
            runs: Runs {
                status0: numbers[1],
                status1: numbers[2],
                status2: numbers[3],
                status3: numbers[4],
                status5: numbers[5],
                status7: numbers[6],
            },
            counts: Counts {
                accepted: numbers[7],
                rejected: numbers[8],
                total: numbers[9],
                ode: numbers[10],
                jac: numbers[11],
                lu: numbers[12],
            },
            largest: numbers[13],
            place: numbers[14],
        }
    }
}

fn print_totals(totals: Totals, out: &mut [u8; 4096]) -> usize
    ensures out_after { out.new ≡ over (printed_of (Ok totals)) out.old }
    ensures value { (result ≡ length (printed_of (Ok totals))) × (result ≤ 4096) }
{
    let mut text = Text::new();
    put_form(&mut text, TOTALS_FORM, totals.into());
    text.copy_over(out);
    text.len()
}

fn put_refusal(text: &mut Text<REFUSAL>, refused: NightError)
    ensures { text.new ≡ put 32 text.old (printed_of (Err refused)) }
{
    match refused {
        NightError::Malformed(line) => text.put_line(b"refused 20 ", line),
        NightError::TooMany => text.put(b"refused 26\n"),
    }
}

fn print_refusal(refused: NightError, out: &mut [u8; 4096]) -> usize
    ensures out_after { out.new ≡ over (printed_of (Err refused)) out.old }
    ensures value { (result ≡ length (printed_of (Err refused))) × (result ≤ 4096) }
{
    let mut text = Text::new();
    put_refusal(&mut text, refused);
    text.copy_over(out);
    text.len()
}

// Puts the bytes over the first of `out` and returns how many they are. The others stay as they were.
pub fn print(outcome: Result<Totals, NightError>, out: &mut [u8; 4096]) -> usize
    ensures out_after { out.new ≡ over (printed_of outcome) out.old }
    ensures value { (result ≡ length (printed_of outcome)) × (result ≤ 4096) }
{
    match outcome {
        Ok(totals) => print_totals(totals, out),
        Err(refused) => print_refusal(refused, out),
    }
}

// What is printed of a forecast, put into lent memory.
ghost use Rattle.std.specs.Prelude.{◌≤◌, ◌≡◌, length};
ghost use Rattle.sheet.specs.Reader.{over};
ghost use Rattle.forecast_text.specs.Printed.{reached_text, refusal_text, printed_of};

use crate::ending::{ForecastError, Reached};
use crate::lines::{ROOM, put_reached};
use crate::texts::Text;
use state::refusal_number;

// As many bytes as a refusal is printed with at most.
const REFUSAL: usize = 32;

fn print_reached(reached: Reached, out: &mut [u8; ROOM]) -> usize
    ensures out_after { out.new ≡ over (reached_text reached) out.old }
    ensures value { (result ≡ length (reached_text reached)) × (result ≤ 1024) }
{
    let mut text = Text::<ROOM>::new();
    put_reached(&mut text, reached);
    text.copy_over(out);
    text.len()
}

fn print_refusal(error: ForecastError, out: &mut [u8; ROOM]) -> usize
    ensures out_after { out.new ≡ over (refusal_text error) out.old }
    ensures value { (result ≡ length (refusal_text error)) × (result ≤ 32) }
{
    let mut text = Text::<REFUSAL>::new();
    match error {
        ForecastError::Opening(refusal) => text.put_line(b"refused ", refusal_number(refusal)),
        ForecastError::Malformed(line) => text.put_line(b"refused 20 ", line as u64),
        ForecastError::TooLong => text.put(b"refused 21\n"),
    }
    text.copy_over(out);
    text.len()
}

// Puts the bytes over the first of `out` and returns how many they are: no more than 771. The others stay as they were.
#[tactic(auto, unfolding(crate::specs::Printed::printed_of))]
pub fn print(forecast: Result<Reached, ForecastError>, out: &mut [u8; 1024]) -> usize
    ensures out_after { out.new ≡ over (printed_of forecast) out.old }
    ensures value { (result ≡ length (printed_of forecast)) × (result ≤ 1024) }
{
    match forecast {
        Ok(reached) => print_reached(reached, out),
        Err(error) => print_refusal(error, out),
    }
}

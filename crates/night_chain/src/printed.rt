// What is printed of an answer.
ghost use Rattle.std.specs.Prelude.{◌≡◌, ◌≤◌, length};
ghost use Rattle.sheet.specs.Reader.{over};
ghost use Rattle.night_chain.specs.Printed.{refusal_text, answer_text};

use crate::chain::ChainError;
use forecast_text::texts::Text;
use night_join::joining::JoinError;
use night_totals::night::NightError;
use night_totals::totals::Totals;

// How much is printed of a refusal.
const ROOM: usize = 11;

fn print_refusal(refused: JoinError, out: &mut [u8; 4096]) -> usize
    ensures out_after { out.new ≡ over (refusal_text refused) out.old }
    ensures value { (result ≡ length (refusal_text refused)) × (result ≤ 4096) }
{
    match refused {
        JoinError::Unfit => {
            let mut text = Text::<ROOM>::new();
            text.put(b"refused 28\n");
            text.copy_over(out);
            text.len()
        }
        JoinError::TooMany => night_totals::print(Err(NightError::TooMany), out),
    }
}

// Puts the bytes over the first of `out` and returns how many they are. The others stay as they were.
pub fn print(answer: Result<Totals, ChainError>, out: &mut [u8; 4096]) -> usize
    ensures out_after { out.new ≡ over (answer_text answer) out.old }
    ensures value { (result ≡ length (answer_text answer)) × (result ≤ 4096) }
{
    match answer {
        Ok(totals) => night_totals::print(Ok(totals), out),
        Err(ChainError::Malformed(line)) => night_totals::print(
            Err(NightError::Malformed(line)),
            out,
        ),
        Err(ChainError::Join(refused)) => print_refusal(refused, out),
    }
}

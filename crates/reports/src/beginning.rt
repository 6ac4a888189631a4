// From a sheet to the first request of its run.
ghost use Rattle.std.specs.Prelude.{◌≡◌};
ghost use Rattle.sheet.specs.Reader.{read_of, amounts_left, rates_left, species_left};
ghost use Rattle.reports.specs.Beginning.{opened_from, begin_of};

use forecast::task::{amounts_from, task_from};
use model_run::run::start;
use sheet::read;
use sheet::sheet::Heading;
use state::talk::Call;

// A run that was opened: how many amounts and reactions it has, and its first request.
#[derive(Clone, Copy)]
pub struct Begun {
    pub n: usize,
    pub reactions: usize,
    pub pending: Call,
}

// The opening of a sheet that was read.
fn opened(heading: Heading, amounts: &[u64; 32]) -> Option<Begun>
    ensures { result ≡ opened_from heading amounts.now }
{
    let task = task_from(heading, amounts_from(amounts));
    match start(task) {
        Err(_) => None,
        Ok(pending) => Some(Begun {
            n: task.n,
            reactions: task.reactions,
            pending,
        }),
    }
}

// Reads a sheet into lent memory and opens its run, which is then lent its amounts, and +0 elsewhere.
pub fn begin(
    bytes: &[u8],
    amounts: &mut [u64; 32],
    rates: &mut [u64; 64],
    species: &mut [usize; 256],
) -> Option<Begun>
    ensures value { result ≡ begin_of (read_of bytes.now) amounts.old }
    ensures amounts_after { amounts.new ≡ amounts_left (read_of bytes.now) amounts.old }
    ensures rates_after { rates.new ≡ rates_left (read_of bytes.now) rates.old }
    ensures species_after { species.new ≡ species_left (read_of bytes.now) species.old }
{
    match read(bytes, amounts, rates, species) {
        Ok(heading) => opened(heading, amounts),
        Err(_) => None,
    }
}

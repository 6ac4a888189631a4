// The lines of a forecast, put one after the other behind a text.
ghost use Rattle.std.specs.Prelude.{◌≡◌};
ghost use Rattle.forecast_text.specs.Printed.{status_line, amounts_text, stride_line, reached_text};
ghost use Rattle.forecast_text.specs.Put.{put};

use crate::ending::Reached;
use crate::texts::Text;
use state::status_number;
use state::talk::IntegrationResult;

// More bytes than a forecast is printed with.
pub const ROOM: usize = 1024;

fn put_status(text: &mut Text<ROOM>, res: IntegrationResult)
    ensures { text.new ≡ put 1024 text.old (status_line res) }
{
    let counts = res.counts;
    text.put_named(b"status ", status_number(res.status));
    text.put_named(b" accepted ", counts.accepted as u64);
    text.put_named(b" rejected ", counts.rejected as u64);
    text.put_named(b" total ", counts.total as u64);
    text.put_named(b" ode ", counts.ode as u64);
    text.put_named(b" jac ", counts.jac as u64);
    text.put_named(b" lu ", counts.lu as u64);
    text.put(b"\n");
}

// The amounts, each with a space in front.
fn put_amounts(text: &mut Text<ROOM>, amounts: &[f64])
    ensures { text.new ≡ put 1024 text.old (amounts_text amounts.now) }
{
    for amount in amounts {
        text.put(b" ");
        text.put_float(*amount);
    }
}

// The line of the smallest and the largest stride.
fn put_strides(text: &mut Text<ROOM>, res: IntegrationResult)
    ensures { text.new ≡ put 1024 text.old (stride_line res) }
{
    text.put(b"h ");
    text.put_float(res.smallest);
    text.put(b" ");
    text.put_float(res.largest);
    text.put(b"\n");
}

// All that is printed of the end of a run.
pub fn put_reached(text: &mut Text<ROOM>, reached: Reached)
    ensures { text.new ≡ put 1024 text.old (reached_text reached) }
{
    let amounts = reached.amounts;
    put_status(text, reached.result);
    text.put(b"x ");
    text.put_float(reached.result.x);
    text.put(b"\ny");
    put_amounts(text, &amounts[0..reached.species.min(amounts.len())]);
    text.put(b"\n");
    put_strides(text, reached.result);
}

// The record of a report.
ghost use Rattle.std.specs.Prelude.{◌≡◌};
ghost use Rattle.reports.specs.Line.{noted, line_at};

use csv_table::answers::ExportError;
use csv_table::table::put_record;
use state::talk::Request;

// Puts the record of a report, with the amounts that are handed out with it. Of any other request there is nothing to
// put.
pub fn put_report(request: Request, y: &[f64], out: &mut [u8]) -> Option<Result<usize, ExportError>>
    ensures { noted result out.new ≡ line_at request y.now out.old }
{
    match request {
        Request::Report(_, x, _) => Some(put_record(x, y, out)),
        _ => None,
    }
}

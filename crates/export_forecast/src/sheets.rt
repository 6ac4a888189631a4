// A sheet in, and what is printed of its forecast out.
ghost use Rattle.sheet.specs.Reader.{read_of};
ghost use Rattle.export_forecast.specs.Printout.{Prints};

use forecast::forecast;
use forecast_text::print;

// Puts what `decay` prints of a sheet over the first bytes of `printed` and answers how many they are: no more than
// 771. The others stay as they were.
#[unsafe(no_mangle)]
pub extern "C" fn elchepur_forecast(sheet: &[u8], printed: &mut [u8; 1024]) -> u64
    ensures { Prints (read_of sheet.now) printed.old printed.new result }
{
    print(forecast(sheet), printed) as u64
}

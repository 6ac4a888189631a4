// The program `decay`: reads a sheet on standard input and prints the run, or why it was refused (01,
// 'Sheet and program'). The bytes that it prints are the value of `print` for what `forecast` answers; here
// is only reading and writing.
#![tactic(auto)]

use forecast::forecast;
use forecast_text::print;
use replay::out::Out;
use sheet_input::read_all;
use sheet_input::reading::KEPT;
use std::io;

// Room for all that is printed of a sheet.
const OUT: usize = 1024;

// What was put into an array that was lent to be written; of what lies behind a reference the length is known.
fn write_first(to: &Out, out: &[u8; OUT], count: usize) {
    let bytes: &[u8] = out;
    to.write(&bytes[0..count.min(bytes.len())]);
}

// Prints what becomes of the sheet, which is as long as was read.
fn tell(to: &Out, kept: &[u8; KEPT], length: usize) {
    let bytes: &[u8] = kept;
    let mut out = [0u8; OUT];
    let printed = print(forecast(&bytes[0..length.min(bytes.len())]), &mut out);
    write_first(to, &out, printed);
}

fn main(rt: HostRuntime) -> io::Result<()> {
    let to = Out::new(rt.stdout());
    let mut kept = [0u8; KEPT];
    match read_all(&mut rt.stdin(), &mut kept) {
        Ok(length) => tell(&to, &kept, length),
        Err(_) => {
            to.write(b"unreadable\n");
        }
    }
    to.end()
}

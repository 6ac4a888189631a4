// The program `rewritten`: reads a sheet on standard input and prints the same sheet, through model and writer, or why
// it was refused. The bytes that it prints are what `rewrite` puts; here is only reading and writing.
#![tactic(auto)]

use replay::out::Out;
use sheet_input::read_all;
use sheet_input::reading::KEPT;
use sheet_write::rewrite;
use std::io;

// Room for every sheet.
const OUT: usize = 4096;

// Of what lies behind a reference the length is known.
fn write_first(to: &Out, out: &[u8; OUT], count: usize) {
    let bytes: &[u8] = out;
    to.write(&bytes[0..count.min(bytes.len())]);
}

// Prints the sheet, which is as long as was read, once more.
fn tell(to: &Out, kept: &[u8; KEPT], length: usize) {
    let bytes: &[u8] = kept;
    let mut out = [0u8; OUT];
    let count = rewrite(&bytes[0..length.min(bytes.len())], &mut out);
    write_first(to, &out, count);
}

fn main(rt: HostRuntime) -> io::Result<()> {
    let to = Out::new(rt.stdout());
    let mut kept = [0u8; KEPT];
    match read_all(&mut rt.stdin(), &mut kept) {
        Ok(length) => tell(&to, &kept, length),
        Err(_) => {
            to.write(b"unreadable\n");
        }
    }
    to.end()
}

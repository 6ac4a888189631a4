// Makes a table of the points of standard input, each a line of four words: the bits of x and of three amounts.
// tests/replays/replay_csv.py, which writes them, makes the table that is to come of it by other means.
#![tactic(auto)]

use bits::double;
use csv_table::answers::ExportError;
use csv_table::table::{put_header, put_record};
use replay::out::Out;
use replay::word::{ReadError, read_block};
use std::io;

// The words of a line: x and its amounts.
const WORDS: usize = 4;

const AMOUNTS: usize = 3;

// Room for every line of such a table.
const ROOM: usize = 128;

// More points than there are.
const MOST_POINTS: u64 = 10_000;

// Writes the line that was put, or that it was refused.
fn write_line(to: &Out, answer: Result<usize, ExportError>, line: &[u8; ROOM]) {
    let bytes: &[u8] = line;
    to.write(match answer {
        Ok(count) => &bytes[0..count.min(bytes.len())],
        Err(ExportError::Order) => b"refused 1\n",
        Err(ExportError::Room) => b"refused 24\n",
    });
}

fn write_header(to: &Out) {
    let mut line = [0u8; ROOM];
    let answer = put_header(AMOUNTS, &mut line);
    write_line(to, answer, &line);
}

fn write_point(to: &Out, words: &[u64; WORDS]) {
    let amounts = [double(words[1]), double(words[2]), double(words[3])];
    let mut line = [0u8; ROOM];
    let answer = put_record(double(words[0]), &amounts, &mut line);
    write_line(to, answer, &line);
}

fn main(rt: HostRuntime) -> io::Result<()> {
    let to = Out::new(rt.stdout());
    let mut input = rt.stdin();
    write_header(&to);
    for _ in 0..MOST_POINTS {
        let mut words = [0u64; WORDS];
        match read_block(&mut input, &mut words, WORDS) {
            Ok(()) => write_point(&to, &words),
            Err(ReadError::Malformed) => {
                to.write(b"malformed\n");
                return to.end();
            }
            Err(ReadError::End) => return to.end(),
        }
    }
    to.end()
}

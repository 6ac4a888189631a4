// The program `totals`: reads status lines on standard input and prints their totals, or why they were refused (02,
// [12]). The bytes that it prints are the value of `print` for what `told` answers; here is only reading and writing.
#![tactic(auto)]

use night_totals::night::Night;
use night_totals::{fed, print, start, told};
use piece_input::reading::PIECE;
use piece_input::{Taker, answer};
use replay::out::Out;
use std::io;

#[derive(Clone, Copy)]
struct Lines(Night);

impl Taker for Lines {
    fn fed(self, piece: &[u8]) -> Lines {
        Lines(fed(self.0, piece))
    }

    fn print(self, out: &mut [u8; PIECE]) -> usize {
        print(told(self.0), out)
    }
}

fn main(rt: HostRuntime) -> io::Result<()> {
    let to = Out::new(rt.stdout());
    answer(&mut rt.stdin(), &to, Lines(start()));
    to.end()
}

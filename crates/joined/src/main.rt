// The program `joined`: reads any number of totals on standard input, as `totals` prints them, and prints them joined
// from left to right, or why they were refused (02, [13]). The bytes that it prints are the value of `print` for what
// `told` answers; here is only reading and writing.
#![tactic(auto)]

use night_chain::chain::Chain;
use night_chain::{fed, print, start, told};
use piece_input::reading::PIECE;
use piece_input::{Taker, answer};
use replay::out::Out;
use std::io;

#[derive(Clone, Copy)]
struct Nights(Chain);

impl Taker for Nights {
    fn fed(self, piece: &[u8]) -> Nights {
        Nights(fed(self.0, piece))
    }

    fn print(self, out: &mut [u8; PIECE]) -> usize {
        print(told(self.0), out)
    }
}

fn main(rt: HostRuntime) -> io::Result<()> {
    let to = Out::new(rt.stdout());
    answer(&mut rt.stdin(), &to, Nights(start()));
    to.end()
}

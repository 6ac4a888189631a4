// Standard output. A write that fails stops nothing: the first error is kept, for the end of the program.
ghost use Rattle.std.specs.Prelude.{◌≡◌};

use std::cell::Cell;
use std::fmt::Display;
use std::io::{self, Print, Stdout};

#[derive(Drop)]
pub struct Out {
    to: Stdout,
    failed: Cell<Option<io::Error>>,
}

impl Out {
    pub fn new(to: Stdout) -> Out {
        Out {
            to,
            failed: Cell::new(None),
        }
    }

    fn keep(&self, written: io::Result<()>) {
        if let Err(error) = written {
            let first = self.failed.take().unwrap_or(error);
            self.failed.set(Some(first));
        }
    }

    pub fn write(&self, bytes: &[u8])
        ensures { result ≡ tt }
    {
        self.keep(self.to.write_all(bytes));
    }

    pub(crate) fn print<D: Display + Drop>(&self, value: D) {
        self.keep(self.to.print(value));
    }

    pub fn decimal(&self, number: u64)
        ensures { result ≡ tt }
    {
        self.print(number);
    }

    // In sixteen digits, with zeros in front.
    pub fn hex(&self, number: u64)
        ensures { result ≡ tt }
    {
        self.print(format_args!("{number:016x}"));
    }

    // The first error, if a write has failed.
    pub fn end(self) -> io::Result<()> {
        self.failed.take().map_or(Ok(()), Err)
    }
}

// Standard output, by way of a buffer.
ghost use Rattle.std.specs.Prelude.{◌≡◌, []};

use arrayvec::ArrayVec;
use std::fmt;
use std::fmt::Write as _;
use std::io::{Stdout, Write as _};

const ROOM: usize = 4096;

// What waits is written when the buffer is full, and by `flush`. What standard output does not take
// is left out, and the listing goes on: so nothing here has an error to give.
#[derive(Drop)]
pub(crate) struct Output {
    to: Stdout,
    waiting: ArrayVec<u8, ROOM>,
}

impl Output {
    pub(crate) fn new(to: Stdout) -> Output {
        Output {
            to,
            waiting: ArrayVec::new(),
        }
    }

    pub(crate) fn line<D: fmt::Display + Drop>(&mut self, line: D) {
        let _ = self.writeln(line);
    }

    // Writes what waits.
    pub(crate) fn flush(&mut self)
        ensures { self.new.waiting.items ≡ [] }
    {
        let _ = self.to.write_all(self.waiting.as_slice());
        self.waiting.clear();
    }

    fn byte(&mut self, b: u8) {
        if self.waiting.is_full() {
            self.flush();
        }
        self.waiting.push(b);
    }
}

impl fmt::Write for Output {
    fn write_str(&mut self, s: &str) -> fmt::Result {
        for b in s.as_bytes() {
            self.byte(*b);
        }
        Ok(())
    }
}

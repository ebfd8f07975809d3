// Writes the answers.
use errors::Error;
use opening::{NotOpened, Opened};
use position::Position;
use refusal::Refusal;
use scanner::State;
use std::fmt::Display;
use std::io::{Print, Stdout};
use utf8::Char;
use validation::NotUtf8;

// Standard output. What it does not take is left out, and the run goes on.
#[derive(Clone, Copy)]
pub(crate) struct Output(pub(crate) Stdout);

impl Output {
    pub(crate) fn bytes(self, bytes: &[u8]) {
        let _ = self.0.write_all(bytes);
    }

    fn text<D: Display + Drop>(self, text: D) {
        let _ = self.0.print(text);
    }

    pub(crate) fn show<T: Show>(self, answer: T) {
        answer.show(self);
    }
}

// What a call answers. Each part of it is written with a space before it.
pub(crate) trait Show {
    fn show(self, out: Output);
}

impl Show for usize {
    fn show(self, out: Output) {
        out.text(format_args!(" {self}"));
    }
}

impl Show for bool {
    fn show(self, out: Output) {
        out.show(usize::from(self));
    }
}

impl Show for &[u8] {
    fn show(self, out: Output) {
        out.bytes(b" '");
        out.bytes(self);
        out.bytes(b"'");
    }
}

impl<T: Show> Show for Option<T> {
    fn show(self, out: Output) {
        match self {
            Some(answer) => answer.show(out),
            None => out.bytes(b" nothing"),
        }
    }
}

impl<T: Show, E: Show> Show for Result<T, E> {
    fn show(self, out: Output) {
        match self {
            Ok(answer) => answer.show(out),
            Err(why) => why.show(out),
        }
    }
}

impl Show for Refusal {
    fn show(self, out: Output) {
        out.text(format_args!(" refused {}", self.number()));
    }
}

// Refusal 1 and the place of the bad byte.
impl Show for NotUtf8 {
    fn show(self, out: Output) {
        out.show(Refusal::NotUtf8);
        out.show(self.place);
    }
}

impl Show for NotOpened {
    fn show(self, out: Output) {
        match self {
            NotOpened::NotUtf8 { place } => out.show(NotUtf8 { place }),
            NotOpened::Refused(refusal) => out.show(refusal),
        }
    }
}

// The number of characters.
impl Show for Opened {
    fn show(self, out: Output) {
        out.show(self.chars);
    }
}

impl Show for Char {
    fn show(self, out: Output) {
        out.show(self.code as usize);
        out.show(self.width);
    }
}

// Offset, line and column.
impl Show for Position {
    fn show(self, out: Output) {
        out.show(self.offset);
        out.show(self.line);
        out.show(self.column);
    }
}

// Number, offset, line and column.
impl Show for Error {
    fn show(self, out: Output) {
        out.show(self.number);
        out.show(self.offset);
        out.show(self.line);
        out.show(self.column);
    }
}

// Place, offset, mark, line count, error count and the current line.
impl Show for State {
    fn show(self, out: Output) {
        out.show(self.place);
        out.show(self.offset);
        out.show(self.mark);
        out.show(self.lines);
        out.show(self.errors);
        out.show(self.line.number);
        out.show(self.line.start);
    }
}

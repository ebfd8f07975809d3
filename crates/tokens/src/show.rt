// The listing in numbers.
use crate::listing::{Form, Shown};
use crate::output::Output;
use errors::Error;
use kinds::Kind;
use opening::NotOpened;
use position::Position;
use refusal::Refusal;
use scanner::State;
use std::fmt;

pub(crate) struct Numbers;

impl Form for Numbers {
    fn token(&self, out: &mut Output, shown: Shown<'_>) {
        out.line(TokenLine(shown));
    }

    fn error(&self, out: &mut Output, _src: &[u8], error: Error) {
        let at = Position {
            offset: error.offset,
            line: error.line,
            column: error.column,
        };
        out.line(format_args!("E {} {}", Located(at), error.number));
    }

    fn end(&self, out: &mut Output, last: State) {
        out.line(format_args!("L {}", last.lines));
    }

    fn refused(&self, out: &mut Output, why: NotOpened) {
        let refusal = match why {
            NotOpened::NotUtf8 { .. } => Refusal::NotUtf8,
            NotOpened::Refused(refusal) => refusal,
        };
        out.line(format_args!("R {}", refusal.number()));
    }
}

// Offset, line and column.
#[derive(Drop)]
struct Located(Position);

impl fmt::Display for Located {
    fn fmt<W: fmt::Write>(&self, f: &mut fmt::Formatter<W>) -> fmt::Result {
        let Position {
            offset,
            line,
            column,
        } = self.0;
        write!(f, "{offset} {line} {column}")
    }
}

// Bytes in hexadecimal; `-` for none.
#[derive(Drop)]
struct Hex<'a>(&'a [u8]);

impl fmt::Display for Hex<'_> {
    fn fmt<W: fmt::Write>(&self, f: &mut fmt::Formatter<W>) -> fmt::Result {
        if self.0.is_empty() {
            return f.write_str("-");
        }
        for b in self.0 {
            write!(f, "{b:02x}")?;
        }
        Ok(())
    }
}

// Position, kind and text; then the value of a STRING, or the code point of a CHAR.
#[derive(Drop)]
struct TokenLine<'a>(Shown<'a>);

impl TokenLine<'_> {
    // A written semicolon, which has no text as no operator has, shows its character.
    fn text(&self) -> &[u8] {
        let token = self.0.token;
        if token.kind == Kind::Semicolon as u8 && !token.inserted {
            b";"
        } else {
            self.0.text
        }
    }
}

impl fmt::Display for TokenLine<'_> {
    fn fmt<W: fmt::Write>(&self, f: &mut fmt::Formatter<W>) -> fmt::Result {
        let token = self.0.token;
        let kind = token.kind;
        write!(f, "{} {kind} {}", Located(self.0.place), Hex(self.text()))?;
        if kind == Kind::String as u8 {
            write!(f, " {}", Hex(self.0.value))?;
        }
        if kind == Kind::Char as u8 {
            write!(f, " {:x}", token.code)?;
        }
        Ok(())
    }
}

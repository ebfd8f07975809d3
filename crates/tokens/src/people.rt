// The listing for people.
use crate::caret::{Below, Source};
use crate::listing::{Form, Shown};
use crate::output::Output;
use crate::{caret, texts};
use errors::Error;
use opening::NotOpened;
use position::Position;
use refusal::Refusal;
use scanner::State;
use std::{fmt, str};

pub(crate) struct Names;

impl Form for Names {
    fn token(&self, out: &mut Output, shown: Shown<'_>) {
        out.line(TokenLine(shown));
    }

    // An error in words, with its line of the source and a caret below it.
    fn error(&self, out: &mut Output, src: &[u8], error: Error) {
        let Error {
            line,
            column,
            number,
            ..
        } = error;
        let text = caret::line(text_of(src), line);
        out.line(format_args!("{line}:{column}: {}", texts::error(number)));
        out.line(format_args!("    {}", Source(text)));
        out.line(format_args!("    {}^", Below { text, column }));
    }

    fn end(&self, out: &mut Output, last: State) {
        out.line(format_args!(
            "{}, {}",
            Count(last.lines, "line"),
            Count(last.errors, "error")
        ));
    }

    fn refused(&self, out: &mut Output, why: NotOpened) {
        out.line(format_args!("refused: {}", Why(why)));
    }
}

// Bytes as text. The source was opened as UTF-8, and what a listing shows of it has whole
// characters.
fn text_of(bytes: &[u8]) -> &str {
    str::from_utf8(bytes).unwrap_or("")
}

// Why a listing ends before EOF, in words.
#[derive(Drop)]
struct Why(NotOpened);

impl fmt::Display for Why {
    fn fmt<W: fmt::Write>(&self, f: &mut fmt::Formatter<W>) -> fmt::Result {
        match self.0 {
            NotOpened::NotUtf8 { place } => {
                let words = texts::refusal(Refusal::NotUtf8);
                write!(f, "{words}: byte {place}, from 0, belongs to no character")
            }
            NotOpened::Refused(refusal) => f.write_str(texts::refusal(refusal)),
        }
    }
}

// A count of things, as `2 errors`.
#[derive(Drop)]
struct Count(usize, &'static str);

impl fmt::Display for Count {
    fn fmt<W: fmt::Write>(&self, f: &mut fmt::Formatter<W>) -> fmt::Result {
        let Count(n, thing) = self;
        write!(f, "{n} {thing}")?;
        if *n != 1 {
            f.write_str("s")?;
        }
        Ok(())
    }
}

// A line and a column, as `4:18`, with room for five digits.
#[derive(Drop)]
struct LineAndColumn(Position);

impl fmt::Display for LineAndColumn {
    fn fmt<W: fmt::Write>(&self, f: &mut fmt::Formatter<W>) -> fmt::Result {
        let Position { line, column, .. } = self.0;
        let digits = line.checked_ilog10().map_or(1, |log| log + 1);
        let left = 5u32.saturating_sub(digits);
        write!(f, "{line}:{column:<width$}", width = left as usize)
    }
}

// Text so that each character can be seen and none moves the terminal's cursor: a line feed is
// `\n`, a CR `\r`, another control character but the tab its number. A line feed at the very end is
// left out.
#[derive(Drop)]
struct Visible<'a>(&'a str);

impl fmt::Display for Visible<'_> {
    fn fmt<W: fmt::Write>(&self, f: &mut fmt::Formatter<W>) -> fmt::Result {
        for c in self.0.strip_suffix('\n').unwrap_or(self.0).chars() {
            match c {
                '\t' => f.write_char(c)?,
                '\n' => f.write_str("\\n")?,
                '\r' => f.write_str("\\r")?,
                '\0'..='\x1f' | '\x7f' => write!(f, "\\x{:02x}", c as u32)?,
                '\u{80}'..='\u{9f}' => write!(f, "\\u{:04x}", c as u32)?,
                _ => f.write_char(c)?,
            }
        }
        Ok(())
    }
}

// Line, column and the name of the kind; then the token's text if it has one, or that a semicolon
// is not in the source.
#[derive(Drop)]
struct TokenLine<'a>(Shown<'a>);

impl fmt::Display for TokenLine<'_> {
    fn fmt<W: fmt::Write>(&self, f: &mut fmt::Formatter<W>) -> fmt::Result {
        let Shown {
            place,
            token,
            text,
            ..
        } = self.0;
        let name = kinds::name(token.kind);
        write!(f, "{}  ", LineAndColumn(place))?;
        if token.inserted {
            return write!(f, "{name:<7}  (inserted)");
        }
        if text.is_empty() {
            return f.write_str(name);
        }
        write!(f, "{name:<7}  {}", Visible(text_of(text)))
    }
}

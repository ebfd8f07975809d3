// A line of the source, and what is below it up to a caret.
use std::{fmt, iter};

// A line, counted from 1; the last one, if there are fewer.
pub(crate) fn line(src: &str, number: usize) -> &str {
    src.split('\n').take(number).last().unwrap_or("")
}

// A line as it is shown: a control character takes one column, and only a tab is written as it is.
#[derive(Drop)]
pub(crate) struct Source<'a>(pub(crate) &'a str);

impl fmt::Display for Source<'_> {
    fn fmt<W: fmt::Write>(&self, f: &mut fmt::Formatter<W>) -> fmt::Result {
        for c in self.0.chars() {
            f.write_char(if c != '\t' && c.is_control() { ' ' } else { c })?;
        }
        Ok(())
    }
}

// What is below a line before a column, which may be past the line's end: a tab below a tab, else a
// space.
#[derive(Drop)]
pub(crate) struct Below<'a> {
    pub(crate) text: &'a str,
    pub(crate) column: usize,
}

impl fmt::Display for Below<'_> {
    fn fmt<W: fmt::Write>(&self, f: &mut fmt::Formatter<W>) -> fmt::Result {
        let columns = self.text.chars().chain(iter::repeat(' '));
        for c in columns.take(self.column.saturating_sub(1)) {
            f.write_char(if c == '\t' { c } else { ' ' })?;
        }
        Ok(())
    }
}

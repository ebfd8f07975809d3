// The positions of a text, and the table of the starts of its lines.
#![tactic(auto)]

ghost use Rattle.std.specs.Prelude.{◌≡◌};
ghost use Rattle.position.specs.Lines.{line_of};
ghost use Rattle.position.specs.Place.{in_range, fitting};
ghost use Rattle.refusal.specs.Outcome.{outcome_of};
ghost use Rattle.refusal.specs.Steps.{where_fits};
ghost use Rattle.position.specs.Queries.{pos_of, position_of, line_start_of};
ghost use Rattle.position.specs.Adding.{add_line};

use refusal::Refusal;

// A text's place among positions, and how many line starts its table holds.
#[derive(Clone, Copy)]
pub struct File {
    pub base: usize,
    pub size: usize,
    pub lines: usize,
}

// A place in a text: its offset in characters, line and column from 1.
#[derive(Clone, Copy)]
pub struct Position {
    pub offset: usize,
    pub line: usize,
    pub column: usize,
}

// A line of a text: its number, from 1, and the offset at which it starts.
#[derive(Clone, Copy)]
pub struct Line {
    pub number: usize,
    pub start: usize,
}

// The index of the first start above the offset, else the count.
fn line_of(starts: &[usize], offset: usize) -> usize
    ensures { result ≡ line_of starts.now offset }
{
    starts
        .iter()
        .position(|start| offset < *start)
        .unwrap_or(starts.len())
}

impl File {
    // The largest position.
    pub const MAX_POSITION: usize = 4_294_967_295;

    // Base + size is a position.
    pub fn in_range(self) -> bool
        ensures { result ≡ in_range self }
    {
        self.base <= File::MAX_POSITION && self.size <= File::MAX_POSITION - self.base
    }

    // The file and its table go together.
    pub fn fits(self, table: &[usize]) -> bool
        ensures { result ≡ fitting self table.now }
    {
        self.in_range() && 0 < self.lines && self.lines <= table.len() && table[0] == 0
    }

    // Refuses a table with which the file does not go together.
    fn checked(self, table: &[usize]) -> Result<(), Refusal>
        ensures { result ≡ where_fits (fitting self table.now) tt }
    {
        if self.fits(table) {
            Ok(())
        } else {
            Err(Refusal::DoesNotFit)
        }
    }

    // The position of an offset.
    pub fn pos(self, offset: usize) -> Result<usize, Refusal>
        ensures { outcome_of result ≡ pos_of self offset }
    {
        if !self.in_range() {
            return Err(Refusal::DoesNotFit);
        }
        if offset > self.size {
            return Err(Refusal::NoPosition);
        }
        Ok(self.base + offset)
    }

    // The offset, line and column of a position.
    pub fn position(self, table: &[usize], p: usize) -> Result<Position, Refusal>
        ensures { outcome_of result ≡ position_of self table.now p }
    {
        self.checked(table)?;
        let offset = p.checked_sub(self.base).ok_or(Refusal::NoPosition)?;
        if offset > self.size {
            return Err(Refusal::NoPosition);
        }
        let line = line_of(&table[..self.lines], offset);
        let column = offset - table[line - 1] + 1;
        Ok(Position {
            offset,
            line,
            column,
        })
    }

    // The position at which a line starts, in a text that has been read up to the offset.
    pub fn line_start(self, table: &[usize], line: usize, offset: usize) -> Result<usize, Refusal>
        ensures { outcome_of result ≡ line_start_of self table.now line offset }
    {
        self.checked(table)?;
        if offset > self.size {
            return Err(Refusal::DoesNotFit);
        }
        if line == 0 || line > self.lines {
            return Err(Refusal::NoLine);
        }
        let start = table[line - 1];
        if start > offset {
            return Err(Refusal::DoesNotFit);
        }
        Ok(self.base + start)
    }

    // The number of lines after a line start was read: it is recorded if it is above the last one
    // and below the size.
    pub fn add_line(self, table: &mut [usize], offset: usize) -> Result<usize, Refusal>
        ensures { record { table = table.new; outcome = outcome_of result } ≡ add_line self table.old offset }
    {
        let lines = self.lines;
        self.checked(table)?;
        if offset <= table[lines - 1] || offset >= self.size {
            return Ok(lines);
        }
        if lines == table.len() {
            return Err(Refusal::TableFull);
        }
        table[lines] = offset;
        Ok(lines + 1)
    }
}

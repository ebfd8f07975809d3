// The state of a scan, which goes from call to call by value.
ghost use Rattle.std.specs.Prelude.{◌≡◌, ◌&&◌, leb};
ghost use Rattle.state.specs.Fits.{file_of, may_be_last, fits_alone, fits_lines, fits};
ghost use Rattle.state.specs.State.{fresh, advance};

use position::Line;

#[derive(Clone, Copy)]
pub struct State {
    // positions are base to base + size
    pub base: usize,
    pub size: usize,
    // the next scan starts at this byte, with so many characters before it
    pub place: usize,
    pub offset: usize,
    // the pending mark: a semicolon may be inserted
    pub mark: bool,
    // how many line starts and errors are recorded
    pub lines: usize,
    pub errors: usize,
    // the last line, which is the line of the offset if the line starts rise
    pub line: Line,
}

impl State {
    // The longest source in bytes.
    pub const MAX_SOURCE: usize = 1_048_576;

    // The largest position, and so the largest base + size.
    pub const MAX_POSITION: usize = position::File::MAX_POSITION;

    // How many numbers a state is.
    pub const NUMBERS: usize = 9;

    // The state before the first scan.
    pub fn new(base: usize, size: usize) -> State
        ensures { result ≡ fresh base size }
    {
        State {
            base,
            size,
            place: 0,
            offset: 0,
            mark: false,
            lines: 1,
            errors: 0,
            line: Line {
                number: 1,
                start: 0,
            },
        }
    }

    // The state of the same text further on, by all that a scan changes. These parameters are the
    // fields that change: a struct of them would be a second state, and docs/PROVED.md names this
    // function as it is.
    pub fn advanced(
        self,
        place: usize,
        offset: usize,
        mark: bool,
        lines: usize,
        errors: usize,
        line: Line,
    ) -> State
        ensures { result ≡ advance self place offset mark lines errors line }
    {
        State {
            place,
            offset,
            mark,
            lines,
            errors,
            line,
            ..self
        }
    }

    // The text's place among positions.
    pub fn file(self) -> position::File
        ensures { result ≡ file_of self }
    {
        position::File {
            base: self.base,
            size: self.size,
            lines: self.lines,
        }
    }

    // Is the offset one of the text, and not above the place?
    fn is_inside(self) -> bool
        ensures { result ≡ leb self.offset self.place && leb self.offset self.size }
    {
        self.offset <= self.place && self.offset <= self.size
    }

    // May the line be the last one? The table tells whether it is.
    fn may_be_last(self) -> bool
        ensures { result ≡ may_be_last self }
    {
        self.line.number == self.lines && self.line.start <= self.offset
    }

    // Does the state go together with itself?
    pub fn fits_alone(self) -> bool
        ensures { result ≡ fits_alone self }
    {
        self.is_inside()
            && self.lines >= 1
            && self.file().in_range()
            && self.may_be_last()
            && (self.lines > 1 || self.line.start == 0)
    }

    // Does it go together with itself and with a table of line starts? The table tells that there
    // is a line, and that a first line starts at 0.
    pub fn fits_lines(self, table: &[usize]) -> bool
        ensures { result ≡ fits_lines self table.now }
    {
        self.is_inside()
            && self.file().fits(table)
            && self.may_be_last()
            && table[self.lines - 1] == self.line.start
    }

    // Does it go together with all that a scan is lent?
    pub fn fits(self, src: &[u8], table: &[usize], list: &[usize]) -> bool
        ensures { result ≡ fits self src.now table.now list.now }
    {
        self.fits_lines(table) && self.place <= src.len() && self.errors <= errors::room(list)
    }
}

// The layout of a record in the list: its numbers and their order.
ghost use Rattle.std.specs.Prelude.{◌≡◌, ◌+◌, ◌≤◌, length};
ghost use Rattle.std.proofs.lemmas.List.Edits.{sets};
ghost use Rattle.errors.specs.Layout.{width, numbers, record_at};

// An error: where it was found, and its number. (The place is no `Position`, whose crate is above
// this one. No `Fault`: a list is lent, and what `get` reads
// of it may be any number.)
#[derive(Clone, Copy)]
pub struct Error {
    pub offset: usize,
    pub line: usize,
    pub column: usize,
    pub number: usize,
}

// How many numbers a record has.
pub(crate) const WIDTH: usize = 4;

impl Error {
    // The numbers of its record, in their order.
    #[tactic(auto, unfolding(crate::specs::Layout::numbers))]
    pub fn numbers(self) -> [usize; 4]
        ensures { result ≡ numbers self }
    {
        [self.offset, self.line, self.column, self.number]
    }
}

// Writes an error as the record at a place.
pub(crate) fn write(list: &mut [usize], at: usize, error: Error)
    requires { at + width ≤ length list.old }
    ensures { list.new ≡ sets list.old at (numbers error) }
{
    list[at..at + WIDTH].copy_from_slice(&error.numbers());
}

// The error whose record is at a place.
pub(crate) fn read(list: &[usize], at: usize) -> Error
    requires { at + width ≤ length list.now }
    ensures { result ≡ record_at list.now at }
{
    Error {
        offset: list[at],
        line: list[at + 1],
        column: list[at + 2],
        number: list[at + 3],
    }
}

// What the questions give, in numbers. Each has a function with a name, since a contract says what
// its array holds; of an array that a closure gives a caller knows nothing.
ghost use Rattle.std.specs.Prelude.{◌≡◌, [], ◌∷◌};
ghost use Rattle.parts.specs.Layout.{part_numbers};
ghost use Rattle.queries_c.specs.Steps.{optional_numbers};

use errors::Error;
use parts::Part;
use position::Position;
use state::bit_of;

pub(crate) fn position_numbers(at: Position) -> [usize; 3]
    ensures { result ≡ at.offset ∷ at.line ∷ at.column ∷ [] }
{
    [at.offset, at.line, at.column]
}

pub(crate) fn start_numbers(start: usize) -> [usize; 1]
    ensures { result ≡ start ∷ [] }
{
    [start]
}

// Four zeros where there is no error.
pub(crate) fn error_numbers(error: Option<Error>) -> [usize; 4]
    ensures { result ≡ optional_numbers error }
{
    let e = error.unwrap_or(Error {
        offset: 0,
        line: 0,
        column: 0,
        number: 0,
    });
    e.numbers()
}

pub(crate) fn part_numbers(part: Part) -> [usize; 3]
    ensures { result ≡ part_numbers part }
{
    [bit_of(part.area), part.start, part.end]
}

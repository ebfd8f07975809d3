// Questions about a text that is being scanned.
#![tactic(auto)]

ghost use Rattle.std.specs.Prelude.{◌≡◌};
ghost use Rattle.refusal.specs.Outcome.{outcome_of};
ghost use Rattle.refusal.specs.Steps.{where_fits};
ghost use Rattle.errors.specs.Answers.{got};
ghost use Rattle.state.specs.Fits.{file_of, fits_lines};
ghost use Rattle.queries.specs.Queries.{position_in, line_start_in, error_in};

use errors::Error;
use position::{File, Position};
use refusal::Refusal;
use state::State;

// The text's place among positions, where the state goes together with the table.
fn file_in(state: State, table: &[usize]) -> Result<File, Refusal>
    ensures { result ≡ where_fits (fits_lines state table.now) (file_of state) }
{
    if state.fits_lines(table) {
        Ok(state.file())
    } else {
        Err(Refusal::DoesNotFit)
    }
}

// The offset, line and column of a position.
pub fn position(state: State, table: &[usize], p: usize) -> Result<Position, Refusal>
    ensures { outcome_of result ≡ position_in state table.now p }
{
    file_in(state, table)?.position(table, p)
}

// The position at which a line starts.
pub fn line_start(state: State, table: &[usize], line: usize) -> Result<usize, Refusal>
    ensures { outcome_of result ≡ line_start_in state table.now line }
{
    file_in(state, table)?.line_start(table, line, state.offset)
}

// The error at an index, from 0; nothing where there is none.
pub fn error(state: State, list: &[usize], index: usize) -> Result<Option<Error>, Refusal>
    ensures { got result ≡ error_in state list.now index }
{
    if !state.fits_alone() {
        return Err(Refusal::DoesNotFit);
    }
    errors::get(list, state.errors, index)
}

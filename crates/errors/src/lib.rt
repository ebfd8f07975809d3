// The list of errors, in order of arrival, in a slice that the caller lends.
#![tactic(auto)]

ghost use Rattle.std.specs.Prelude.{◌≡◌};
ghost use Rattle.refusal.specs.Outcome.{outcome_of};
ghost use Rattle.errors.specs.Answers.{got};
ghost use Rattle.errors.specs.Errors.{room_of, add_to, get_of};

use refusal::Refusal;

mod fault;
mod layout;

pub use fault::{Fault, UnknownFault};
pub use layout::Error;

// How many records a list holds.
pub fn room(list: &[usize]) -> usize
    ensures { result ≡ room_of list.now }
{
    list.len() / layout::WIDTH
}

// Adds an error after the first `count`, and gives how many there are then.
pub fn add(list: &mut [usize], count: usize, error: Error) -> Result<usize, Refusal>
    ensures { record { list = list.new; outcome = outcome_of result } ≡ add_to list.old count error }
{
    let most = room(list);
    if count > most {
        return Err(Refusal::DoesNotFit);
    }
    if count == most {
        return Err(Refusal::ListFull);
    }
    layout::write(list, count * layout::WIDTH, error);
    Ok(count + 1)
}

// The error at an index, from 0, of a list of `count` errors; nothing where the list has none
// there.
pub fn get(list: &[usize], count: usize, index: usize) -> Result<Option<Error>, Refusal>
    ensures { got result ≡ get_of list.now count index }
{
    if count > room(list) {
        return Err(Refusal::DoesNotFit);
    }
    if index >= count {
        return Ok(None);
    }
    Ok(Some(layout::read(list, index * layout::WIDTH)))
}

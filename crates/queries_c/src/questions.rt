// The exported questions about the state that the first nine numbers of a slice are. Each answers
// the number of its refusal, or 0, and writes what it gives to a lent slice. A slice that is too
// short for a state or an answer is refused by 6, and nothing is written.
ghost use Rattle.std.specs.Prelude.{◌≡◌};
ghost use Rattle.queries_c.specs.Questions.{position_numbers, line_start_numbers, error_numbers};

use crate::layout::{error_numbers, position_numbers, start_numbers};
use refusal::answered;
use state::{State, state_in};

// The offset, line and column of a position.
#[unsafe(no_mangle)]
pub extern "C" fn scanner_position(
    state: &[usize],
    table: &[usize],
    p: usize,
    answer: &mut [usize],
) -> u8
    ensures { record { refusal = result; answer = answer.new } ≡ position_numbers state.now table.now p answer.old }
{
    let outcome = queries::position(state_in(state), table, p).map(position_numbers);
    answered(state, State::NUMBERS, outcome, answer)
}

// The position at which a line starts.
#[unsafe(no_mangle)]
pub extern "C" fn scanner_line_start(
    state: &[usize],
    table: &[usize],
    line: usize,
    answer: &mut [usize],
) -> u8
    ensures { record { refusal = result; answer = answer.new } ≡ line_start_numbers state.now table.now line answer.old }
{
    let outcome = queries::line_start(state_in(state), table, line).map(start_numbers);
    answered(state, State::NUMBERS, outcome, answer)
}

// The offset, line, column and number of the error at an index, from 0; four zeros where there is
// none.
#[unsafe(no_mangle)]
pub extern "C" fn scanner_error(
    state: &[usize],
    list: &[usize],
    index: usize,
    answer: &mut [usize],
) -> u8
    ensures { record { refusal = result; answer = answer.new } ≡ error_numbers state.now list.now index answer.old }
{
    let outcome = queries::error(state_in(state), list, index).map(error_numbers);
    answered(state, State::NUMBERS, outcome, answer)
}

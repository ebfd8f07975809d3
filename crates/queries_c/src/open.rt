// The exported function that opens a source. It answers the number of its refusal, or 0, and writes
// what it gives to lent slices. A slice that is too short for a state or an answer is refused by 6,
// and nothing is written. (`answered` of `refusal` does not serve here: opening writes a state and a
// number, and a refusal writes a place.)
ghost use Rattle.std.specs.Prelude.{◌≡◌};
ghost use Rattle.queries_c.specs.Open.{open_numbers};

use opening::NotOpened;
use refusal::{Refusal, too_short};
use state::{State, put_state};

// The first state goes to `state`, the number of characters to `answer`; for refusal 1 the place of
// the bad byte goes there.
#[unsafe(no_mangle)]
pub extern "C" fn scanner_open(
    src: &[u8],
    base: usize,
    size: usize,
    table: &mut [usize],
    state: &mut [usize],
    answer: &mut [usize],
) -> u8
    ensures { record { refusal = result; table = table.new; state = state.new; answer = answer.new }
        ≡ open_numbers src.now base size table.old state.old answer.old }
{
    if too_short(state.len(), State::NUMBERS, answer.len(), 1) {
        return Refusal::DoesNotFit.number();
    }
    match opening::open(src, base, size, table) {
        Ok(opened) => {
            put_state(opened.state, state);
            answer[0] = opened.chars;
            0
        }
        Err(NotOpened::NotUtf8 { place }) => {
            answer[0] = place;
            Refusal::NotUtf8.number()
        }
        Err(NotOpened::Refused(refusal)) => refusal.number(),
    }
}

// The exported function: it answers the number of its refusal, or 0, and writes what it gives to
// lent slices. A refusal writes nothing. (`answered` of `refusal` does not serve here: the scans
// write a state and a count.)
ghost use Rattle.std.specs.Prelude.{◌≡◌};
ghost use Rattle.batch_c.specs.Many.{scan_many_numbers};

use refusal::{Refusal, too_short};
use state::{State, put_state, state_in};

// Scans token after token, as many as `tokens` has room for, ten numbers each. It stops after EOF,
// before a scan that would be refused, and after a token that shows something from the text area,
// since the next scan would write over that. `answer` gets the number of tokens. A call without
// room for a state, an answer or a token is refused, and so is one whose first scan is refused.
#[unsafe(no_mangle)]
pub extern "C" fn scanner_scan_many(
    src: &[u8],
    state: &mut [usize],
    table: &mut [usize],
    list: &mut [usize],
    area: &mut [u8],
    tokens: &mut [usize],
    answer: &mut [usize],
) -> u8
    ensures { record { refusal = result; state = state.new; table = table.new; list = list.new; area = area.new; tokens = tokens.new; answer = answer.new }
        ≡ scan_many_numbers src.now state.old table.old list.old area.old tokens.old answer.old }
{
    if too_short(state.len(), State::NUMBERS, answer.len(), 1) {
        return Refusal::DoesNotFit.number();
    }
    match batch::scan_many(src, state_in(state), table, list, area, tokens) {
        Ok(ran) => {
            answer[0] = ran.count;
            put_state(ran.state, state);
            0
        }
        Err(refusal) => refusal.number(),
    }
}

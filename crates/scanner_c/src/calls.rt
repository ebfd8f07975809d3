// The exported function: it answers the number of its refusal, or 0, and writes what it gives to
// lent slices. A slice that is too short for a state or a token is refused by 6, and nothing is
// written. (`answered` of `refusal` does not serve here: a scan writes a state and a token.)
ghost use Rattle.std.specs.Prelude.{◌≡◌};
ghost use Rattle.scanner_c.specs.Calls.{scan_numbers};

use parts::{Token, put_token};
use refusal::{Refusal, too_short};
use state::{State, put_state, state_in};

// Scans one token. A refused scan leaves every slice as it was.
#[unsafe(no_mangle)]
pub extern "C" fn scanner_scan(
    src: &[u8],
    state: &mut [usize],
    table: &mut [usize],
    list: &mut [usize],
    area: &mut [u8],
    token: &mut [usize],
) -> u8
    ensures { record { refusal = result; state = state.new; table = table.new; list = list.new; area = area.new; token = token.new }
        ≡ scan_numbers src.now state.old table.old list.old area.old token.old }
{
    if too_short(state.len(), State::NUMBERS, token.len(), Token::NUMBERS) {
        return Refusal::DoesNotFit.number();
    }
    match scanner::scan(src, state_in(state), table, list, area) {
        Ok(scanned) => {
            put_state(scanned.state, state);
            put_token(scanned.token, token);
            0
        }
        Err(refusal) => refusal.number(),
    }
}

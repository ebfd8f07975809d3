// Runs of simple tokens.
ghost use Rattle.std.specs.Prelude.{◌≡◌, true, ◌+◌, ◌-◌, ◌≤◌, ◌<◌, ◌^◌, length};
ghost use Rattle.state.specs.Fits.{fits};
ghost use Rattle.batch.specs.Many.{token_room};
ghost use Rattle.batch.specs.Run.{reached, start_at, IsSafe, Leads};

use crate::layout::{put_token_at, token_room};
use crate::step::{Reached, next_simple, record_line};
use crate::tables::Tables;
use position::Line;
use state::State;

// What scans give: the state after them, and how many tokens there are then.
#[derive(Clone, Copy)]
pub struct Batch {
    pub state: State,
    pub count: usize,
}

// Where a run starts.
pub(crate) fn start_at(first: State) -> Reached
    ensures { result ≡ start_at first }
{
    Reached {
        place: first.place,
        mark: first.mark,
        lines: first.lines,
    }
}

// The state where a run of simple tokens has come to; their characters are of one byte each. The
// table has the line starts before it, so the loop does not keep the last one.
pub(crate) fn state_at(first: State, at: Reached, table: &[usize]) -> State
    requires { (first.place ≤ at.place) × (first.offset + (at.place - first.place) < 2 ^ 64) × (1 ≤ at.lines) × (at.lines ≤ length table.now) }
    ensures { result ≡ reached first at table.now }
{
    let offset = first.offset + (at.place - first.place);
    let line = Line {
        number: at.lines,
        start: table[at.lines - 1],
    };
    first.advanced(at.place, offset, at.mark, at.lines, first.errors, line)
}

// A place before which simple tokens start: from there more than sixteen bytes are in the source,
// and the offset stays below the size.
fn safe_end(src: &[u8], first: State) -> usize
    requires { (first.place ≤ length src.now) × (first.offset ≤ first.size) × (first.size < 2 ^ 32) }
    ensures { IsSafe src.now first result }
{
    let sized = first.place + (first.size - first.offset);
    usize::min(sized, src.len()).saturating_sub(16)
}

// Gives simple tokens one after the other while there is room. What changes from token to token is
// kept in few numbers. (The loop is no `for`: it also ends where no token comes, and how many came
// goes into the answer in both cases.)
pub(crate) fn run_simple(
    src: &[u8],
    tables: &Tables,
    from: Batch,
    table: &mut [usize],
    list: &[usize],
    tokens: &mut [usize],
) -> Batch
    requires { fits from.state src.now table.old list.now ≡ true }
    ensures { Leads (token_room tokens.old) src.now list.now from.state table.old tokens.old from.count result.state table.new tokens.new result.count }
{
    let first = from.state;
    let safe = safe_end(src, first);
    let room = token_room(tokens);
    let mut at = start_at(first);
    let mut count = from.count;
    while count < room {
        match next_simple(src, tables, first, safe, at, table, list) {
            Some((blanks, next)) => {
                put_token_at(next.token, tokens, count);
                let lines = record_line(first, at, blanks, table);
                at = Reached {
                    place: next.place,
                    mark: next.mark,
                    lines,
                };
                count += 1;
            }
            None => break,
        }
    }
    Batch {
        state: state_at(first, at, table),
        count,
    }
}

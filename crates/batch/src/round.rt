// Rounds of scans: a run of simple tokens, and a whole scan for the token after them.
ghost use Rattle.std.specs.Prelude.{◌≡◌, true, not, ◌&&◌, ltb};
ghost use Rattle.state.specs.Fits.{fits};
ghost use Rattle.batch.specs.Many.{is_last, token_room};
ghost use Rattle.batch.specs.Run.{HasRoom, Comes};

use crate::layout::{put_token_at, token_room};
use crate::run::{Batch, run_simple};
use crate::tables::Tables;
use kinds::Kind;
use parts::Token;
use refusal::Refusal;
use scanner::scan;
use std::ops::ControlFlow;

// How far scans have come. They go on from what they gave, or end with it; they are refused where
// the first one is.
pub(crate) type Round = ControlFlow<Result<Batch, Refusal>, Batch>;

// Is no scan to be made after this token?
fn is_last(t: Token) -> bool
    ensures { result ≡ is_last t }
{
    t.text.area | t.value.area | (t.kind == Kind::Eof as u8)
}

// Is one more scan to be made after this token, where there are so many?
fn goes_on(t: Token, count: usize, room: usize) -> bool
    ensures { result ≡ not (is_last t) && ltb count room }
{
    !is_last(t) && count < room
}

// One scan after so many tokens. A token is written as ten numbers.
fn scan_next(
    src: &[u8],
    from: Batch,
    table: &mut [usize],
    list: &mut [usize],
    area: &mut [u8],
    tokens: &mut [usize],
) -> Round
    requires { (fits from.state src.now table.old list.old ≡ true) × HasRoom from.count tokens.old }
    ensures { Comes (token_room tokens.old) src.now from table.old list.old area.old tokens.old result table.new list.new area.new tokens.new }
{
    let scanned = match scan(src, from.state, table, list, area) {
        Ok(scanned) => scanned,
        Err(refusal) => {
            if from.count == 0 {
                return ControlFlow::Break(Err(refusal));
            }
            return ControlFlow::Break(Ok(from));
        }
    };
    put_token_at(scanned.token, tokens, from.count);
    let given = Batch {
        state: scanned.state,
        count: from.count + 1,
    };
    if goes_on(scanned.token, given.count, token_room(tokens)) {
        return ControlFlow::Continue(given);
    }
    ControlFlow::Break(Ok(given))
}

// Simple tokens, and one scan where there is room left.
pub(crate) fn scan_round(
    src: &[u8],
    tables: &Tables,
    from: Batch,
    table: &mut [usize],
    list: &mut [usize],
    area: &mut [u8],
    tokens: &mut [usize],
) -> Round
    requires { (fits from.state src.now table.old list.old ≡ true) × HasRoom from.count tokens.old }
    ensures { Comes (token_room tokens.old) src.now from table.old list.old area.old tokens.old result table.new list.new area.new tokens.new }
{
    let run = run_simple(src, tables, from, table, list, tokens);
    if run.count == token_room(tokens) {
        return ControlFlow::Break(Ok(run));
    }
    scan_next(src, run, table, list, area, tokens)
}

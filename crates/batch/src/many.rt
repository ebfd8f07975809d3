// Many scans in one call: token after token, each by its numbers. (The source and the buffers go as
// parameters, as `scan` is lent them: a struct of `&mut` slices would have each step say that it keeps
// each reference.)
ghost use Rattle.std.specs.Prelude.{◌≡◌, true, ◌≤◌, length};
ghost use Rattle.position.specs.Lines.{line_in};
ghost use Rattle.state.specs.Fits.{fits};
ghost use Rattle.parts.specs.Layout.{token_width};
ghost use Rattle.batch.specs.Many.{scan_many_of, many_left};
ghost use Rattle.batch.specs.Run.{HasLine};

use crate::round::scan_round;
use crate::run::{Batch, start_at, state_at};
use crate::tables::Tables;
use parts::Token;
use refusal::Refusal;
use state::State;
use std::ops::ControlFlow;

// What the rounds gave. The line is read from the table once more, so that the rounds need not keep
// it.
fn gave(last: Batch, table: &[usize]) -> Batch
    requires { (last.state.line ≡ line_in table.now last.state.lines) × (1 ≤ last.state.lines) × (last.state.lines ≤ length table.now) }
    ensures { result ≡ last }
{
    Batch {
        state: state_at(last.state, start_at(last.state), table),
        ..last
    }
}

// The end of the rounds.
fn ended(end: Result<Batch, Refusal>, table: &[usize]) -> Result<Batch, Refusal>
    requires { HasLine end table.now }
    ensures { result ≡ end }
{
    match end {
        Ok(last) => Ok(gave(last, table)),
        Err(refusal) => Err(refusal),
    }
}

// Scans until a token is the last, the next scan would be refused or there is no room for one more
// token.
fn scan_rounds(
    src: &[u8],
    first: State,
    table: &mut [usize],
    list: &mut [usize],
    area: &mut [u8],
    tokens: &mut [usize],
) -> Result<Batch, Refusal>
    requires { (fits first src.now table.old list.old ≡ true) × (token_width ≤ length tokens.old) }
    ensures { many_left first result table.new list.new area.new tokens.new ≡ scan_many_of src.now first table.old list.old area.old tokens.old }
{
    let tables = Tables::new();
    let mut round = Batch {
        state: first,
        count: 0,
    };
    loop {
        match scan_round(src, &tables, round, table, list, area, tokens) {
            ControlFlow::Continue(next) => round = next,
            ControlFlow::Break(end) => return ended(end, table),
        }
    }
}

// Scans token after token, as many as `tokens` has room for, ten numbers each. It stops after EOF,
// before a scan that would be refused, and after a token that shows something from the text area,
// since the next scan would write over that. A call without room for a token is refused, and so is
// one whose first scan is refused. A refused call changes nothing.
pub fn scan_many(
    src: &[u8],
    first: State,
    table: &mut [usize],
    list: &mut [usize],
    area: &mut [u8],
    tokens: &mut [usize],
) -> Result<Batch, Refusal>
    ensures { many_left first result table.new list.new area.new tokens.new ≡ scan_many_of src.now first table.old list.old area.old tokens.old }
{
    if tokens.len() < Token::NUMBERS {
        return Err(Refusal::DoesNotFit);
    }
    if !first.fits(src, table, list) {
        return Err(Refusal::DoesNotFit);
    }
    scan_rounds(src, first, table, list, area, tokens)
}

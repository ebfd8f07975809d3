// A step of a run: blanks, and one simple token after them.
ghost use Rattle.std.specs.Prelude.{◌≡◌, true, ℕ, ◌+◌, ◌≤◌, ◌<◌, length, IfSome};
ghost use Rattle.state.specs.Fits.{fits};
ghost use Rattle.batch.specs.Near.{feeds_of, near_as};
ghost use Rattle.batch.specs.Run.{reached, IsSafe, Recorded, IsReady, ReadyAt, IsLined, IsNext};

use crate::near::{Near, near_blanks};
use crate::next::Next;
use crate::simple::give_simple;
use crate::start::Start;
use crate::tables::Tables;
use state::State;

// How far a run of simple tokens has come: the place, and the mark and the count of line starts
// there.
#[derive(Clone, Copy)]
pub(crate) struct Reached {
    pub(crate) place: usize,
    pub(crate) mark: bool,
    pub(crate) lines: usize,
}

// May a token be given after these blanks? It starts before the safe place, and there is room for
// the line start.
fn is_ready(blanks: Near, safe: usize, lines: usize, table: &[usize]) -> bool
    ensures { result ≡ true → IsReady blanks safe lines table.now }
{
    if safe <= blanks.end {
        return false;
    }
    if blanks.line.is_some() {
        return lines < table.len();
    }
    true
}

// The blanks where a run has come to, if a token may be given after them.
fn ready_blanks(src: &[u8], safe: usize, at: Reached, table: &[usize]) -> Option<Near>
    requires { (p : ℕ) → p < safe → p + 16 < length src.now }
    ensures { ReadyAt src.now at safe table.now result }
{
    if safe <= at.place {
        return None;
    }
    let blanks = near_blanks(src, at.place, at.mark)?;
    if !is_ready(blanks, safe, at.lines, table) {
        return None;
    }
    Some(blanks)
}

// Records the line start after the line feed of blanks, if they have one; answers how many line
// starts there are then.
pub(crate) fn record_line(first: State, at: Reached, blanks: Near, table: &mut [usize]) -> usize
    requires { IsLined first at blanks table.old }
    ensures { Recorded (reached first at table.old) (near_as at.place blanks) table.old table.new × (result ≡ at.lines + feeds_of blanks.line) }
{
    let Some(line) = blanks.line else {
        return at.lines;
    };
    table[at.lines] = first.offset + (line - first.place);
    at.lines + 1
}

// Gives the next simple token, if there is one, and the blanks before it.
pub(crate) fn next_simple(
    src: &[u8],
    tables: &Tables,
    first: State,
    safe: usize,
    at: Reached,
    table: &[usize],
    list: &[usize],
) -> Option<(Near, Next)>
    requires { (fits (reached first at table.now) src.now table.now list.now ≡ true) × (first.place ≤ at.place) × IsSafe src.now first safe }
    ensures { IfSome result (λ step. IsNext src.now first safe at table.now step.0 step.1) }
{
    let blanks = ready_blanks(src, safe, at, table)?;
    let start = Start {
        src,
        at: blanks.end,
        safe,
        position: first.base + first.offset + (blanks.end - first.place),
    };
    let next = give_simple(start, tables)?;
    Some((blanks, next))
}

// Quick scans: of tokens that show the source's own bytes and end before the size, where the table
// has room. Where they do not take a token, they change nothing.
ghost use Rattle.std.specs.Prelude.{◌≡◌, ◌+◌, ◌-◌, ◌≤◌, ◌++◌, length};
ghost use Rattle.std.proofs.lemmas.List.Edits.{sets};
ghost use Rattle.scanner.specs.Steps.{starts_from, Known};
ghost use Rattle.scanner.specs.Quick.{ends_in_feed, start_after, is_quick, PlainReady, QuickReady, plain_token, quick_token, Tries};

use crate::answer::{Scanned, is_plain, last_line, position_at, token_of};
use crate::read::Pass;
use lexer::Lexed;
use position::Line;
use state::State;

// Has a token no line feed but perhaps its last byte?
#[tactic(auto, unfolding(crate::specs::Quick::ends_in_feed))]
fn ends_in_feed(src: &[u8], x: Lexed) -> bool
    requires { (x.lfs ≤ x.end) × (x.end ≤ length src.now) }
    ensures { result ≡ ends_in_feed src.now x }
{
    match x.lfs {
        0 => true,
        1 => src[x.end - 1] == b'\n',
        _ => false,
    }
}

// Records the line starts of blanks, and the one after a token that ends in a line feed at an
// offset.
fn record_ends(src: &[u8], state: State, pass: Pass, offset: usize, table: &mut [usize])
    requires { (state.place ≤ pass.blanks.end) × (pass.blanks.lfs ≡ length (starts_from src.now state (pass.blanks.end - state.place)))
        × (state.lines + (pass.blanks.lfs + pass.token.lfs) ≤ length table.old) }
    ensures { table.new ≡ sets table.old state.lines
        (starts_from src.now state (pass.blanks.end - state.place) ++ start_after pass.token offset) }
{
    let blanks = pass.blanks;
    if blanks.lfs > 0 {
        lines::write_starts(
            src,
            state.place,
            blanks.end - state.place,
            state.offset,
            state.size,
            table,
            state.lines,
        );
    }
    if pass.token.lfs > 0 {
        table[state.lines + blanks.lfs] = offset;
    }
}

// Is it a token that is given at once? It is plain and ends before the size.
fn is_quick(state: State, x: Lexed, offset: usize) -> bool
    ensures { result ≡ is_quick state x offset }
{
    is_plain(x) && offset < state.size
}

// The token that was read, and the state at the offset where it ends: with so many lines, on this
// one.
fn given(state: State, pass: Pass, offset: usize, lines: usize, line: Line) -> Scanned
    requires { PlainReady state pass.blanks pass.token }
    ensures { result ≡ plain_token state pass.blanks pass.token offset lines line }
{
    let x = pass.token;
    let start = pass.blanks.end;
    let token = token_of(x, start, position_at(state, start));
    Scanned {
        state: state.advanced(x.end, offset, x.mark, lines, state.errors, line),
        token,
    }
}

// Gives such a token, which ends at an offset and has no line feed but perhaps its last byte.
fn give_quick(src: &[u8], state: State, pass: Pass, offset: usize, table: &mut [usize]) -> Scanned
    requires { QuickReady src.now state pass.blanks pass.token table.old }
    ensures { (table.new ≡ sets table.old state.lines
        (starts_from src.now state (pass.blanks.end - state.place) ++ start_after pass.token offset)) × (result ≡ quick_token state pass.blanks pass.token offset table.new) }
{
    let lines = state.lines + (pass.blanks.lfs + pass.token.lfs);
    record_ends(src, state, pass, offset, table);
    given(state, pass, offset, lines, last_line(table, lines))
}

// Tries the token of a pass. Most tokens read no line feed, and stay on their line.
pub(crate) fn try_plain(
    src: &[u8],
    state: State,
    pass: Pass,
    table: &mut [usize],
    list: &[usize],
) -> Option<Scanned>
    requires { Known src.now state table.old list.now pass.blanks pass.token pass.chars }
    ensures { Tries src.now state table.old list.now result table.new }
{
    let x = pass.token;
    let offset = state.offset + pass.chars;
    if !is_quick(state, x, offset) {
        return None;
    }
    let feeds = pass.blanks.lfs + x.lfs;
    if feeds == 0 {
        return Some(given(state, pass, offset, state.lines, state.line));
    }
    if !ends_in_feed(src, x) {
        return None;
    }
    if table.len() - state.lines < feeds {
        return None;
    }
    Some(give_quick(src, state, pass, offset, table))
}

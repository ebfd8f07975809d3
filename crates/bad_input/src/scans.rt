// Calls of the scanner. (State, source and buffers are given one by one, as the scanner takes them.)
use crate::show::Output;
use scanner::{Part, State, Token};

// S, with the calls below: opening of the source at the base, in the size; gives the state after
// it.
pub(crate) fn open(source: &[u8], state: State, table: &mut [usize], out: Output) -> State {
    let opened = scanner::open(source, state.base, state.size, table);
    out.show(opened);
    match opened {
        Ok(opened) => opened.state,
        Err(_) => state,
    }
}

// A part of the source or of the area; with a refusal, an empty one and the refusal.
fn show_part<'a>(source: &'a [u8], area: &'a [u8], part: Part, out: Output) {
    match scanner::shown(source, area, part) {
        Ok(bytes) => out.show(bytes),
        Err(refusal) => {
            out.bytes(b" ''");
            out.show(refusal);
        }
    }
}

// X: the part from i to j.
pub(crate) fn part(function: u8, source: &[u8], area: &[u8], i: usize, j: usize, out: Output) {
    let part = Part {
        area: function == b'a',
        start: i,
        end: j,
    };
    show_part(source, area, part, out);
}

// A token: its kind, its position, its text and its value.
fn show_token<'a>(source: &'a [u8], area: &'a [u8], token: Token, out: Output) {
    out.show(usize::from(token.kind));
    out.show(token.position);
    show_part(source, area, token.text, out);
    show_part(source, area, token.value, out);
}

// Scans, shows the answer, and gives the state after it.
pub(crate) fn scan(
    source: &[u8],
    state: State,
    table: &mut [usize],
    list: &mut [usize],
    area: &mut [u8],
    out: Output,
) -> State {
    match scanner::scan(source, state, table, list, area) {
        Ok(scanned) => {
            show_token(source, area, scanned.token, out);
            scanned.state
        }
        Err(refusal) => {
            out.show(refusal);
            state
        }
    }
}

// The questions: of the state, the table, the list and n.
pub(crate) fn ask(
    function: u8,
    state: State,
    table: &[usize],
    list: &[usize],
    n: usize,
    out: Output,
) {
    match function {
        b's' => out.show(state),
        b'p' => out.show(scanner::position(state, table, n)),
        b'l' => out.show(scanner::line_start(state, table, n)),
        _ => out.show(scanner::error(state, list, n)),
    }
}

// Calls of the crates that keep line starts and errors. (State, table and numbers are given one by one,
// as these take them.)
use crate::show::Output;
use errors::{Error, Fault};
use scanner::State;

// P: of a file, the table, n and i. An added line is the one call that changes the table.
pub(crate) fn position(
    function: u8,
    state: State,
    table: &mut [usize],
    n: usize,
    i: usize,
    out: Output,
) {
    let file = state.file();
    match function {
        b'a' => out.show(file.add_line(table, n)),
        b'f' => out.show(file.fits(table)),
        b'o' => out.show(file.pos(n)),
        b'p' => out.show(file.position(table, n)),
        _ => out.show(file.line_start(table, n, i)),
    }
}

// An error at an offset.
fn error_at(offset: usize) -> Error {
    Error {
        offset,
        line: 2,
        column: 3,
        number: Fault::OpenQuote as usize,
    }
}

// E: of the list, the error count and n.
pub(crate) fn errors(function: u8, state: State, list: &mut [usize], n: usize, out: Output) {
    match function {
        b'r' => out.show(errors::room(list)),
        b'a' => out.show(errors::add(list, state.errors, error_at(n))),
        _ => out.show(errors::get(list, state.errors, n)),
    }
}

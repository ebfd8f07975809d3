// One scan: a pass that only reads, the checks, and then what is written.
ghost use Rattle.std.specs.Prelude.{◌≡◌, ◌+◌, ◌*◌, ◌-◌, ◌≤◌, ◌<◌, ◌^◌, true, cond, leb, eqb, length, take, drop, SomeIff};
ghost use Rattle.std.proofs.lemmas.List.Edits.{sets};
ghost use Rattle.utf8.specs.Chars.{chars};
ghost use Rattle.utf8.specs.Count.{is_lf, count};
ghost use Rattle.lines.specs.Starts.{starts_read};
ghost use Rattle.errors.specs.Faults.{error_number};
ghost use Rattle.errors.specs.Layout.{width, numbers};
ghost use Rattle.errors.specs.Errors.{room_of};
ghost use Rattle.reading.specs.Reading.{error_at};
ghost use Rattle.state.specs.Fits.{fits};
ghost use Rattle.scanner.specs.Scan.{gave_answer, answer_of, scan_of};
ghost use Rattle.scanner.specs.Steps.{area_len, to_write, refusal_by, refusal_in, state_by, starts_from, Known, Ready, left_of, commit_of};

use crate::answer::{Scanned, last_line, position_at, token_of};
use crate::quick::try_plain;
use crate::read::{Pass, read_next};
use crate::write::{write_area, write_error};
use errors::Fault;
use lexer::{Lexed, Shown};
use refusal::Refusal;
use state::State;

// How many line starts the next characters record, so many of them with so many line feeds; at the
// size a line feed starts no line.
fn starts_read(src: &[u8], state: State, read: usize, lfs: usize) -> usize
    requires { (read ≤ length (chars (drop state.place src.now))) × (lfs ≡ count is_lf (take read (chars (drop state.place src.now))))
        × (state.offset + read < 2 ^ 64) }
    ensures { result ≡ length (starts_read state.size state.offset (take read (chars (drop state.place src.now)))) }
{
    if state.offset + read < state.size {
        return lfs;
    }
    lines::count_starts(src, state.place, read, state.offset, state.size)
}

// What is left of so much room after a text or a value, if that goes to the area. A stray byte is
// counted once and written in three bytes.
fn room_after<T: Copy>(room: usize, shown: Shown<T>, strays: usize) -> Option<usize>
    ensures { SomeIff result (area_len shown.bytes strays shown.differs ≤ room) (room - area_len shown.bytes strays shown.differs) }
{
    if !shown.differs {
        return Some(room);
    }
    room.checked_sub(shown.bytes)?
        .checked_sub(strays.checked_mul(2)?)
}

// Does an area of so many bytes hold what is to be written of a token?
fn has_room(x: Lexed, area: usize) -> bool
    ensures { result ≡ leb (to_write x) area }
{
    match room_after(area, x.text, x.strays) {
        None => false,
        Some(room) => room_after(room, x.value, x.strays).is_some(),
    }
}

// The first of `BadSize`, `TableFull`, `ListFull` and `AreaFull` whose condition holds: for the offset
// reached, the line starts read and the lengths of the buffers. (The lengths stay three numbers: no
// other function takes them.)
fn check(
    x: Lexed,
    offset: usize,
    starts: usize,
    state: State,
    table: usize,
    list: usize,
    area: usize,
) -> Result<(), Refusal>
    requires { (state.lines ≤ table) × (state.errors ≤ list) }
    ensures { refusal_in result ≡ refusal_by x offset starts state table list area }
{
    if offset > state.size {
        return Err(Refusal::BadSize);
    }
    if starts > table - state.lines {
        return Err(Refusal::TableFull);
    }
    if x.error.is_some() && state.errors == list {
        return Err(Refusal::ListFull);
    }
    if !has_room(x, area) {
        return Err(Refusal::AreaFull);
    }
    Ok(())
}

// The state after a token that ends at an offset and records so many line starts, which the table
// has by now.
fn state_after(x: Lexed, offset: usize, starts: usize, state: State, table: &[usize]) -> State
    requires { (1 ≤ state.lines) × (state.lines + starts ≤ length table.now) × (state.errors + 1 < 2 ^ 64) }
    ensures { result ≡ state_by x offset starts state table.now }
{
    let errors = match x.error {
        None => state.errors,
        Some(_) => state.errors + 1,
    };
    let lines = state.lines + starts;
    state.advanced(
        x.end,
        offset,
        x.mark,
        lines,
        errors,
        last_line(table, lines),
    )
}

// Records the line starts of the next characters; where there are none, they are not read again.
fn record_starts(src: &[u8], state: State, read: usize, starts: usize, table: &mut [usize])
    requires { starts ≡ length (starts_from src.now state read) }
    ensures { table.new ≡ sets table.old state.lines (starts_from src.now state read) }
{
    if starts > 0 {
        lines::write_starts(
            src,
            state.place,
            read,
            state.offset,
            state.size,
            table,
            state.lines,
        );
    }
}

// Records the error of a token, if it has one, after the first `count`.
fn record_error(after: State, list: &mut [usize], count: usize, error: Option<Fault>)
    requires { (after.line.start ≤ after.offset) × (after.offset + 1 < 2 ^ 64)
        × (count + cond (eqb (error_number error) 0) 0 1 ≤ room_of list.old) }
    ensures { list.new ≡ cond (eqb (error_number error) 0) list.old (sets list.old (count * width)
        (numbers (error_at (error_number error) after.offset after.line))) }
{
    if let Some(fault) = error {
        write_error(after, list, count, fault);
    }
}

// The buffers go as three parameters, as `scan` is lent them: a struct of three `&mut` slices would
// have each step say that it keeps each reference.

// Writes what a token that passed the checks leaves in the buffers; answers the state after it.
fn write_token(
    src: &[u8],
    state: State,
    pass: Pass,
    starts: usize,
    table: &mut [usize],
    list: &mut [usize],
    area: &mut [u8],
) -> State
    requires { Ready src.now state pass.blanks.end pass.token pass.chars starts table.old list.old area.old }
    ensures { (record { table = table.new; list = list.new; area = area.new }
        ≡ left_of src.now state pass.blanks.end pass.token pass.chars starts table.old list.old area.old)
        × (result ≡ state_by pass.token (state.offset + pass.chars) starts state table.new) }
{
    let x = pass.token;
    record_starts(src, state, pass.chars, starts, table);
    let after = state_after(x, state.offset + pass.chars, starts, state, table);
    record_error(after, list, state.errors, x.error);
    write_area(src, pass.blanks.end, x, area);
    after
}

// Commits a token that passed the checks: what it leaves in the buffers, and the answer.
fn commit(
    src: &[u8],
    state: State,
    pass: Pass,
    starts: usize,
    table: &mut [usize],
    list: &mut [usize],
    area: &mut [u8],
) -> Scanned
    requires { Ready src.now state pass.blanks.end pass.token pass.chars starts table.old list.old area.old }
    ensures { record { table = table.new; list = list.new; area = area.new; answer = gave_answer result }
        ≡ commit_of src.now state pass.blanks.end pass.token pass.chars starts table.old list.old area.old }
{
    let start = pass.blanks.end;
    let token = token_of(pass.token, start, position_at(state, start));
    let after = write_token(src, state, pass, starts, table, list, area);
    Scanned {
        state: after,
        token,
    }
}

// What a scan comes to by its pass: the checks, and then what is written.
fn finish(
    src: &[u8],
    state: State,
    pass: Pass,
    table: &mut [usize],
    list: &mut [usize],
    area: &mut [u8],
) -> Result<Scanned, Refusal>
    requires { Known src.now state table.old list.old pass.blanks pass.token pass.chars }
    ensures { record { table = table.new; list = list.new; area = area.new; answer = answer_of state result }
        ≡ scan_of src.now state table.old list.old area.old }
{
    let x = pass.token;
    let offset = state.offset + pass.chars;
    let room = errors::room(list);
    let starts = starts_read(src, state, pass.chars, pass.blanks.lfs + x.lfs);
    check(x, offset, starts, state, table.len(), room, area.len())?;
    Ok(commit(src, state, pass, starts, table, list, area))
}

// Scans one token where the state fits: a pass that only reads, the checks, and then what is
// written.
fn scan_next(
    src: &[u8],
    state: State,
    table: &mut [usize],
    list: &mut [usize],
    area: &mut [u8],
) -> Result<Scanned, Refusal>
    requires { fits state src.now table.old list.old ≡ true }
    ensures { record { table = table.new; list = list.new; area = area.new; answer = answer_of state result }
        ≡ scan_of src.now state table.old list.old area.old }
{
    let pass = read_next(src, state);
    match try_plain(src, state, pass, table, list) {
        Some(scanned) => Ok(scanned),
        None => finish(src, state, pass, table, list, area),
    }
}

// Scans one token.
pub fn scan(
    src: &[u8],
    state: State,
    table: &mut [usize],
    list: &mut [usize],
    area: &mut [u8],
) -> Result<Scanned, Refusal>
    ensures { record { table = table.new; list = list.new; area = area.new; answer = answer_of state result }
        ≡ scan_of src.now state table.old list.old area.old }
{
    if !state.fits(src, table, list) {
        return Err(Refusal::DoesNotFit);
    }
    scan_next(src, state, table, list, area)
}

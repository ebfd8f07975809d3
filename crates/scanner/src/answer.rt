// What a scan answers: a token by its parts, and the state after it.
ghost use Rattle.std.specs.Prelude.{◌≡◌, cond, ◌+◌, ◌≤◌, ◌<◌, ◌^◌, eqb, length};
ghost use Rattle.kinds.specs.Kinds.{STRING};
ghost use Rattle.kinds.specs.Number.{kind_number};
ghost use Rattle.position.specs.Lines.{line_in};
ghost use Rattle.lexer.specs.Placed.{length_of};
ghost use Rattle.scanner.specs.Scan.{part_from};
ghost use Rattle.scanner.specs.Steps.{text_len, value_len, token_by, is_plain, position_by};

use kinds::Kind;
use lexer::{Lexed, Shown};
use parts::{Part, Token};
use position::Line;
use state::State;

// The state after a scan, and the token.
#[derive(Clone, Copy)]
pub struct Scanned {
    pub state: State,
    pub token: Token,
}

// The part that a text or a value is, from a place on; of the area's bytes a stray one is written
// in three.
fn part_from<T: Copy>(shown: Shown<T>, start: usize, strays: usize) -> Part
    requires { start + length_of shown.bytes strays shown.differs < 2 ^ 64 }
    ensures { result ≡ part_from shown.differs start (length_of shown.bytes strays shown.differs) }
{
    let bytes = if shown.differs {
        shown.bytes + 2 * strays
    } else {
        shown.bytes
    };
    Part {
        area: shown.differs,
        start,
        end: start + bytes,
    }
}

// Where the value starts: after the text in the area, or after the source's opening quote. (That a
// place behind the quote is a number is asked here and in `write`: a type for places with one after
// them would be no plainer.)
fn value_start(x: Lexed, start: usize, text_end: usize) -> usize
    requires { start + 1 < 2 ^ 64 }
    ensures { result ≡ cond x.value.differs (cond x.text.differs text_end 0) (cond (eqb (kind_number x.kind) STRING) (start + 1) start) }
{
    if x.value.differs {
        if x.text.differs { text_end } else { 0 }
    } else if x.kind == Kind::String {
        start + 1
    } else {
        start
    }
}

// Is it a token without an error, whose text and value are the source's own bytes?
pub(crate) fn is_plain(x: Lexed) -> bool
    ensures { result ≡ is_plain x }
{
    x.error.is_none() && !x.text.differs && !x.value.differs
}

// The position of a token that starts at a place, with blanks of one byte each between the state's
// place and it.
pub(crate) fn position_at(state: State, start: usize) -> usize
    requires { (state.place ≤ start) × (position_by state start < 2 ^ 64) }
    ensures { result ≡ position_by state start }
{
    state.base + state.offset + (start - state.place)
}

// The last line of a table that has so many starts.
pub(crate) fn last_line(table: &[usize], lines: usize) -> Line
    requires { (1 ≤ lines) × (lines ≤ length table.now) }
    ensures { result ≡ line_in table.now lines }
{
    Line {
        number: lines,
        start: table[lines - 1],
    }
}

// The token that was read at a place, with its position.
pub(crate) fn token_of(x: Lexed, start: usize, position: usize) -> Token
    requires { start + 1 + text_len x + value_len x < 2 ^ 64 }
    ensures { result ≡ token_by x start position }
{
    let text_start = if x.text.differs { 0 } else { start };
    let text = part_from(x.text, text_start, x.strays);
    let value = part_from(x.value, value_start(x, start, text.end), x.strays);
    Token {
        kind: x.kind as u8,
        inserted: x.inserted,
        position,
        code: x.code,
        text,
        value,
    }
}

// Strings and character literals.
ghost use Rattle.std.specs.Prelude.{◌≡◌, suc, ◌≤◌, ◌<◌, ◌^◌, drop, get_or};
ghost use Rattle.utf8.specs.Chars.{chars};
ghost use Rattle.lexer.specs.Quotes.{lex_string, lex_char};
ghost use Rattle.lexer.specs.Placed.{said, placed};
ghost use Rattle.lexer.specs.Made.{code, quoted_as};

use crate::lexed::{Lexed, Shown, Text, Value, bare};
use errors::Fault;
use kinds::Kind;
use quotes::Quoted;

// A literal at a place by its body; its text is what was read.
fn literal(q: Quoted, at: usize, kind: Kind, error: Option<Fault>) -> Lexed
    requires { (at ≤ q.end) × (suc q.content.chars < 2 ^ 64) }
    ensures { result ≡ quoted_as q at kind error }
{
    let text = Shown {
        bytes: q.end - at,
        making: Text::AsRead,
        differs: q.content.strays != 0,
    };
    Lexed {
        strays: q.content.strays,
        error,
        text,
        ..bare(kind, q.end, q.content.chars + 1, true)
    }
}

// The string at a place that holds a double quote.
pub(crate) fn lex_string(src: &[u8], at: usize) -> Lexed
    requires { get_or src.now at 0 ≡ code "\"" }
    ensures { said src.now at result ≡ placed src.now at (lex_string (chars (drop at src.now))) }
{
    let q = quotes::string_body(src, at + 1);
    if q.error.is_some() {
        return literal(q, at, Kind::Illegal, q.error);
    }
    let x = literal(q, at, Kind::String, None);
    let value = Shown {
        bytes: q.content.bytes,
        making: Value::Interpreted,
        differs: q.content.escaped | x.text.differs,
    };
    Lexed { value, ..x }
}

// The character literal at a place that holds a single quote.
pub(crate) fn lex_char(src: &[u8], at: usize) -> Lexed
    requires { get_or src.now at 0 ≡ code "'" }
    ensures { said src.now at result ≡ placed src.now at (lex_char (chars (drop at src.now))) }
{
    let q = quotes::char_body(src, at + 1);
    if q.error.is_some() {
        return literal(q, at, Kind::Illegal, q.error);
    }
    if q.content.count != 1 {
        return literal(q, at, Kind::Illegal, Some(Fault::NotOneCharacter));
    }
    Lexed {
        code: q.content.code,
        ..literal(q, at, Kind::Char, None)
    }
}

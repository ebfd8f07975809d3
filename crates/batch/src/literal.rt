// Decimal integers and strings of plain characters given as simple tokens.
ghost use Rattle.std.specs.Prelude.{◌≡◌, true, ◌<◌, get_or, IfSome};
ghost use Rattle.digits.specs.Digit.{is_decimal};
ghost use Rattle.batch.specs.Simple.{quote, DigitsBefore, string_token, GivesSimple};

use crate::first::First;
use crate::next::{Next, simple_token};
use crate::start::Start;
use crate::tables::Tables;
use kinds::Kind;
use parts::{Part, Token};

// How many decimal digits a text starts with, if something is after them.
fn digits_before(text: &[u8]) -> Option<usize>
    ensures { IfSome result (DigitsBefore text.now) }
{
    text.iter().position(|b| !digits::is_decimal(*b))
}

// Gives the decimal integer at a place. It has digits only, no leading 0, and nothing after it that
// belongs to a number or a word.
pub(crate) fn decimal(start: Start<'_>, tables: &Tables) -> Option<Next>
    requires { is_decimal (get_or start.src.now start.at 0) ≡ true }
    ensures { GivesSimple start.entry result }
{
    let count = digits_before(&start.src[start.at..start.safe])?;
    let end = start.at + count;
    match tables.first(start.src[end]) {
        First::Letter | First::Point => return None,
        _ => {}
    }
    if start.src[start.at] == b'0' {
        if count != 1 {
            return None;
        }
    }
    Some(Next {
        token: simple_token(start, Kind::Int as u8, false, end),
        place: end,
        mark: true,
    })
}

// The string from a place to its closing quote. Its text is the source's bytes up to and with that
// quote, its value those between the quotes.
fn string_token(start: Start<'_>, close: usize) -> Token
    requires { close < start.safe }
    ensures { result ≡ string_token start.entry.position start.entry.at close }
{
    Token {
        value: Part {
            area: false,
            start: start.at + 1,
            end: close,
        },
        ..simple_token(start, Kind::String as u8, false, close + 1)
    }
}

// Gives the string at a place, where it is closed and has plain characters alone.
pub(crate) fn string(start: Start<'_>) -> Option<Next>
    requires { get_or start.src.now start.at 0 ≡ quote }
    ensures { GivesSimple start.entry result }
{
    let close = quotes::plain_string(start.src, start.at + 1);
    if start.safe <= close {
        return None;
    }
    if start.src[close] != b'"' {
        return None;
    }
    Some(Next {
        token: string_token(start, close),
        place: close + 1,
        mark: true,
    })
}

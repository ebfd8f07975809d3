// Simple tokens: words, delimiters, operators but those that start with a slash, decimal integers,
// strings of plain characters, and the semicolon that is inserted before a line feed. The first
// byte tells what to try. Their text is the source's own bytes.
ghost use Rattle.std.specs.Prelude.{◌≡◌, get_or};
ghost use Rattle.batch.specs.declared.first.First.TheVariants.{Delimiter, Operator};
ghost use Rattle.batch.specs.Near.{line_feed};
ghost use Rattle.batch.specs.Simple.{point, first_of, Gives, GivesSimple};

use crate::first::First;
use crate::literal::{decimal, string};
use crate::next::{Next, simple_token};
use crate::start::Start;
use crate::tables::Tables;
use crate::word::word;
use kinds::Kind;

// Gives the operator at a place.
fn operator(start: Start<'_>) -> Next
    requires { first_of (get_or start.src.now start.at 0) ≡ Operator }
    ensures { Gives start.entry result }
{
    let o = operators::scan_operator(start.src, start.at);
    let kind = o.kind as u8;
    Next {
        token: simple_token(start, kind, false, start.at),
        place: start.at + o.len,
        mark: kinds::sets_mark(kind),
    }
}

// Gives the delimiter of a kind at a place.
fn delimiter(start: Start<'_>, kind: Kind) -> Next
    requires { first_of (get_or start.src.now start.at 0) ≡ Delimiter kind }
    ensures { Gives start.entry result }
{
    Next {
        token: simple_token(start, kind as u8, false, start.at),
        place: start.at + 1,
        mark: kinds::sets_mark(kind as u8),
    }
}

// Gives the point at a place, where a letter is after it.
fn point(start: Start<'_>, tables: &Tables) -> Option<Next>
    requires { get_or start.src.now start.at 0 ≡ point }
    ensures { GivesSimple start.entry result }
{
    let First::Letter = tables.first(start.src[start.at + 1]) else {
        return None;
    };
    Some(Next {
        token: simple_token(start, Kind::Period as u8, false, start.at),
        place: start.at + 1,
        mark: false,
    })
}

// Gives the semicolon that is inserted before a line feed.
fn semicolon(start: Start<'_>) -> Next
    requires { get_or start.src.now start.at 0 ≡ line_feed }
    ensures { Gives start.entry result }
{
    Next {
        token: simple_token(start, Kind::Semicolon as u8, true, start.at),
        place: start.at,
        mark: false,
    }
}

// Gives the simple token at a place, if there is one.
pub(crate) fn give_simple(start: Start<'_>, tables: &Tables) -> Option<Next>
    ensures { GivesSimple start.entry result }
{
    match tables.first(start.src[start.at]) {
        First::Letter => word(start, tables),
        First::Delimiter(kind) => Some(delimiter(start, kind)),
        First::Point => point(start, tables),
        First::LineFeed => Some(semicolon(start)),
        First::Operator => Some(operator(start)),
        First::Digit => decimal(start, tables),
        First::Quote => string(start),
        First::Other => None,
    }
}

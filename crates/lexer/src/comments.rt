// Raw strings and comments.
ghost use Rattle.std.specs.Prelude.{◌≡◌, ◌⊎◌, ◌+◌, ◌≤◌, ◌<◌, ◌^◌, drop, get_or};
ghost use Rattle.utf8.specs.Chars.{chars};
ghost use Rattle.lexer.specs.Quotes.{lex_raw};
ghost use Rattle.lexer.specs.Comments.{comment, lex_comment};
ghost use Rattle.lexer.specs.Placed.{said, placed};
ghost use Rattle.lexer.specs.Made.{code, spanned_as};

use crate::lexed::{Lexed, Shown, Text, Value, bare, inserted_semicolon};
use errors::Fault;
use kinds::Kind;

// A token at a place by its body, which starts after `opening` characters; its text is without CR.
fn spanned(b: spans::Body, at: usize, opening: usize, kind: Kind, mark: bool) -> Lexed
    requires { (at + b.crs ≤ b.end) × (b.chars + opening < 2 ^ 64) }
    ensures { result ≡ spanned_as b at opening kind mark }
{
    let text = Shown {
        bytes: b.end - at - b.crs,
        making: Text::WithoutCr,
        differs: (b.crs != 0) | (b.strays != 0),
    };
    Lexed {
        lfs: b.lfs,
        strays: b.strays,
        text,
        ..bare(kind, b.end, b.chars + opening, mark)
    }
}

// The raw string at a place that holds a backquote.
pub(crate) fn lex_raw(src: &[u8], at: usize) -> Lexed
    requires { get_or src.now at 0 ≡ code "`" }
    ensures { said src.now at result ≡ placed src.now at (lex_raw (chars (drop at src.now))) }
{
    let b = spans::raw_body(src, at + 1);
    let x = spanned(b, at, 1, Kind::String, true);
    let (quotes, error) = if b.closed {
        (2, None)
    } else {
        (1, Some(Fault::OpenRawString))
    };
    let value = Shown {
        bytes: x.text.bytes - quotes,
        making: Value::Raw,
        differs: x.text.differs,
    };
    Lexed { error, value, ..x }
}

// What is known of the bytes at the place is asked by each function, as in `lex`: a type for a
// place that holds a slash would be named in each contract and each call, and is no plainer.

// The line comment at a place that holds two slashes; one that is not closed gains a line feed.
fn line_comment(src: &[u8], at: usize, mark: bool) -> Lexed
    requires { (get_or src.now at 0 ≡ code "/") × (get_or src.now (at + 1) 0 ≡ code "/") }
    ensures { said src.now at result ≡ placed src.now at (comment mark (chars (drop at src.now))) }
{
    let b = spans::line_body(src, at + 2);
    let x = spanned(b, at, 2, Kind::Comment, mark);
    if b.closed {
        return x;
    }
    let text = Shown {
        bytes: x.text.bytes + 1,
        making: Text::WithLf,
        differs: true,
    };
    Lexed { text, ..x }
}

// The general comment at a place that holds a slash and a star.
fn general_comment(src: &[u8], at: usize, mark: bool) -> Lexed
    requires { (get_or src.now at 0 ≡ code "/") × (get_or src.now (at + 1) 0 ≡ code "*") }
    ensures { said src.now at result ≡ placed src.now at (comment mark (chars (drop at src.now))) }
{
    let b = spans::block_body(src, at + 2);
    let x = spanned(b, at, 2, Kind::Comment, mark);
    if b.closed {
        return x;
    }
    Lexed {
        error: Some(Fault::OpenComment),
        ..x
    }
}

// The comment at a place, by the byte after its slash. One that ends the line is an inserted
// semicolon where the mark is set.
pub(crate) fn lex_comment(src: &[u8], at: usize, second: u8, mark: bool) -> Lexed
    requires { (get_or src.now at 0 ≡ code "/") × (get_or src.now (at + 1) 0 ≡ second) × ((second ≡ code "/") ⊎ (second ≡ code "*")) }
    ensures { said src.now at result ≡ placed src.now at (lex_comment mark (chars (drop at src.now))) }
{
    if second == b'/' {
        if mark {
            return inserted_semicolon(at);
        }
        return line_comment(src, at, mark);
    }
    if mark && spans::ends_line(src, at + 2) {
        return inserted_semicolon(at);
    }
    general_comment(src, at, mark)
}

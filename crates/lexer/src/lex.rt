// One token, by its first character.
ghost use Rattle.std.specs.Prelude.{◌≡◌, not, false, ◌&&◌, ◌||◌, ◌+◌, ◌<◌, eqb, length, drop, get_or};
ghost use Rattle.utf8.specs.Chars.{chars};
ghost use Rattle.digits.specs.Digit.{is_decimal};
ghost use Rattle.lexer.specs.Lex.{lex_illegal, lex_operator, lex_other, lex_token};
ghost use Rattle.lexer.specs.Placed.{said, placed};
ghost use Rattle.lexer.specs.Made.{code, StartsOther};

use crate::comments::{lex_comment, lex_raw};
use crate::lexed::{Lexed, Shown, Text, bare, inserted_semicolon, unknown_token};
use crate::number::lex_number;
use crate::quoted::{lex_char, lex_string};
use crate::word::lex_word;
use kinds::Kind;

// The source and a place stay two parameters, and what is known of the byte there is asked by name,
// as StartsOther: a struct of both would be named in each contract and each call, and is no
// plainer.

// A single character that starts no token.
fn lex_illegal(src: &[u8], at: usize, mark: bool) -> Lexed
    requires { StartsOther src.now at }
    ensures { said src.now at result ≡ placed src.now at (lex_illegal mark 1 (chars (drop at src.now))) }
{
    let c = reader::char_from(src, at);
    let stray = utf8::is_stray(c);
    let text = Shown {
        bytes: c.width,
        making: Text::AsRead,
        differs: stray,
    };
    Lexed {
        strays: usize::from(stray),
        text,
        ..unknown_token(at + c.width, 1, mark)
    }
}

// The operator at a place, or a character that starts none.
fn lex_operator(src: &[u8], at: usize, mark: bool) -> Lexed
    requires { StartsOther src.now at }
    ensures { said src.now at result ≡ placed src.now at (lex_operator mark (chars (drop at src.now))) }
{
    let o = operators::scan_operator(src, at);
    if o.kind == Kind::Illegal {
        return lex_illegal(src, at, mark);
    }
    bare(o.kind, at + o.len, o.len, kinds::sets_mark(o.kind as u8))
}

// Does a comment start with these two bytes?
fn starts_comment(first: u8, second: u8) -> bool
    ensures { result ≡ eqb first (code "/") && (eqb second (code "/") || eqb second (code "*")) }
{
    first == b'/' && matches!(second, b'/' | b'*')
}

// Are there two points at a place, and no third?
fn is_two_points(src: &[u8], at: usize) -> bool
    ensures { result ≡ eqb (get_or src.now at 0) (code ".") && (eqb (get_or src.now (at + 1) 0) (code ".") && not (eqb (get_or src.now (at + 2) 0) (code "."))) }
{
    utf8::byte(src, at) == b'.'
        && utf8::byte(src, at + 1) == b'.'
        && utf8::byte(src, at + 2) != b'.'
}

// A token that is no word, number or literal: a comment, two points, or an operator.
fn lex_other(src: &[u8], at: usize, second: u8, mark: bool) -> Lexed
    requires { StartsOther src.now at × (get_or src.now (at + 1) 0 ≡ second)
        × (eqb (get_or src.now at 0) (code ".") && is_decimal second ≡ false) }
    ensures { said src.now at result ≡ placed src.now at (lex_other mark (get_or src.now at 0) (chars (drop at src.now))) }
{
    if starts_comment(src[at], second) {
        return lex_comment(src, at, second, mark);
    }
    if is_two_points(src, at) {
        return unknown_token(at + 2, 2, mark);
    }
    lex_operator(src, at, mark)
}

// The token at a place after the blanks.
pub fn lex_token(src: &[u8], at: usize, mark: bool) -> Lexed
    ensures { said src.now at result ≡ placed src.now at (lex_token mark (chars (drop at src.now))) }
{
    if src.len() <= at {
        if mark {
            return inserted_semicolon(at);
        }
        return bare(Kind::Eof, at, 0, false);
    }
    let first = src[at];
    let second = utf8::byte(src, at + 1);
    if words::is_letter(first) {
        return lex_word(src, at);
    }
    if numbers::starts_number(first, second) {
        return lex_number(src, at);
    }
    match first {
        b'\n' => inserted_semicolon(at),
        b'"' => lex_string(src, at),
        b'\'' => lex_char(src, at),
        b'`' => lex_raw(src, at),
        _ => lex_other(src, at, second, mark),
    }
}

// The value of a string.
ghost use Rattle.std.specs.Prelude.{◌≡◌, Ok, drop};
ghost use Rattle.std.proofs.lemmas.List.Edits.{sets};
ghost use Rattle.utf8.specs.Chars.{chars};
ghost use Rattle.escapes.specs.Answers.{meaning_of, bytes_of};
ghost use Rattle.quotes.specs.Body.{body};
ghost use Rattle.quotes.specs.Literal.{double_quote};
ghost use Rattle.writing.specs.Written.{raw_count, raw_value};
ghost use Rattle.writing.specs.Writes.{Writes};

use crate::chars::write_clean;
use crate::put::{put, put_code};
use escapes::Given;

// Writes what an escape gives, and answers the place after it.
fn put_given(given: Given, area: &mut [u8], to: usize) -> usize
    ensures { Writes area.old to (bytes_of (meaning_of (Ok given))) area.new result }
{
    match given {
        Given::Char(code) => put_code(area, to, code),
        Given::Byte(byte) => put(area, to, byte),
    }
}

// The value of the string whose body starts at a place.
pub fn write_interpreted(src: &[u8], at: usize, area: &mut [u8], to: usize)
    ensures { area.new ≡ sets area.old to (body double_quote (chars (drop at src.now))).value }
{
    // An index loop: a step goes over an escape or a character, so no `for` fits.
    let mut p = at;
    let mut n = to;
    while p < src.len() {
        let b = src[p];
        if b == b'"' {
            return;
        }
        if b == b'\n' {
            return;
        }
        if b == b'\\' {
            let e = escapes::escape_at(src, p + 1, b'"');
            let Ok(given) = e.given else {
                return;
            };
            n = put_given(given, area, n);
            p += e.len + 1;
        } else {
            let c = utf8::char_at(src, p);
            n = put_code(area, n, c.code);
            p += c.width;
        }
    }
}

// How many characters of the raw string whose body starts at a place belong to its value.
fn raw_inside(src: &[u8], at: usize) -> usize
    ensures { result ≡ raw_count (chars (drop at src.now)) }
{
    let body = spans::raw_body(src, at);
    if body.closed {
        body.chars - 1
    } else {
        body.chars
    }
}

// The value of the raw string whose body starts at a place.
pub fn write_raw(src: &[u8], at: usize, area: &mut [u8], to: usize)
    ensures { area.new ≡ sets area.old to (raw_value (chars (drop at src.now))) }
{
    write_clean(src, at, raw_inside(src, at), area, to);
}

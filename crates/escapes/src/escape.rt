// Escapes.
ghost use Rattle.std.specs.Prelude.{◌≡◌, drop};
ghost use Rattle.utf8.specs.Chars.{is_scalar, chars};
ghost use Rattle.escapes.specs.Answers.{meaning_of, says};
ghost use Rattle.escapes.specs.Steps.{digits_said, entry};
ghost use Rattle.escapes.specs.Escape.{letter, following, byte_of, code_point_of, unread_escape, single_escape, octal_escape, hex_escape, escape_of};
ghost use Rattle.errors.specs.Faults.{fault_number};

use crate::escape_digits::{EscapeDigits, digits_at};
use crate::{Escaped, Given};
use digits::Base;
use errors::Fault;

// The fault of digits whose number is out of range: above it, or a surrogate.
const OUT_OF_RANGE: Fault = Fault::NoCodePoint;

// The code that a letter, or a backslash, gives after a backslash.
#[tactic(auto, unfolding(crate::specs::Escape::letter))]
fn letter_code(b: u8) -> Option<u32>
    ensures { result ≡ entry (letter b) }
{
    match b {
        b'a' => Some(0x07),
        b'b' => Some(0x08),
        b'f' => Some(0x0C),
        b'n' => Some('\n' as u32),
        b'r' => Some('\r' as u32),
        b't' => Some('\t' as u32),
        b'v' => Some(0x0B),
        b'\\' => Some('\\' as u32),
        _ => None,
    }
}

// What digits give that stand for a byte.
fn byte_of(n: EscapeDigits) -> Result<Given, Fault>
    ensures { meaning_of result ≡ byte_of (digits_said n) }
{
    let code = n.value?;
    let Ok(byte) = u8::try_from(code) else {
        return Err(OUT_OF_RANGE);
    };
    Ok(Given::Byte(byte))
}

// Is a code a Unicode scalar value: no surrogate, and not above 10FFFF?
fn is_scalar(code: u32) -> bool
    ensures { result ≡ is_scalar code }
{
    char::from_u32(code).is_some()
}

// What digits give that stand for a code.
fn code_of(n: EscapeDigits) -> Result<Given, Fault>
    ensures { meaning_of result ≡ code_point_of (digits_said n) }
{
    let code = n.value?;
    if !is_scalar(code) {
        return Err(OUT_OF_RANGE);
    }
    Ok(Given::Char(code))
}

// How many hexadecimal digits follow x, u or U.
#[tactic(auto, unfolding(crate::specs::Escape::following))]
fn digits_after(b: u8) -> Option<usize>
    ensures { result ≡ entry (following b) }
{
    match b {
        b'x' => Some(2),
        b'u' => Some(4),
        b'U' => Some(8),
        _ => None,
    }
}

// An escape that is not read, for a fault.
fn unread(fault: Fault) -> Escaped
    ensures { says result ≡ unread_escape (fault_number fault) }
{
    Escaped {
        len: 0,
        given: Err(fault),
    }
}

// The escape of hexadecimal digits, which are at a place after its first byte.
fn hex_at(src: &[u8], at: usize, first: u8) -> Escaped
    ensures { says result ≡ hex_escape first (chars (drop at src.now)) }
{
    let Some(count) = digits_after(first) else {
        return unread(Fault::UnknownEscape);
    };
    let n = digits_at(src, at, Base::Hexadecimal, count);
    let given = if first == b'x' {
        byte_of(n)
    } else {
        code_of(n)
    };
    Escaped {
        len: n.len + 1,
        given,
    }
}

// The escape of three octal digits at a place.
fn octal_at(src: &[u8], at: usize) -> Escaped
    ensures { says result ≡ octal_escape (chars (drop at src.now)) }
{
    let n = digits_at(src, at, Base::Octal, 3);
    Escaped {
        len: n.len,
        given: byte_of(n),
    }
}

// The escape of one character that gives a code.
fn single(code: u32) -> Escaped
    ensures { says result ≡ single_escape code }
{
    Escaped {
        len: 1,
        given: Ok(Given::Char(code)),
    }
}

// The escape at a place after a backslash.
pub fn escape_at(src: &[u8], at: usize, quote: u8) -> Escaped
    ensures { says result ≡ escape_of quote (chars (drop at src.now)) }
{
    let Some(&b) = src.get(at) else {
        return unread(Fault::CutEscape);
    };
    if let Some(code) = letter_code(b) {
        return single(code);
    }
    let c = utf8::char_at(src, at);
    if c.code == quote as u32 {
        return single(c.code);
    }
    if digits::digit_val(b) < 8 {
        return octal_at(src, at);
    }
    hex_at(src, at + c.width, b)
}

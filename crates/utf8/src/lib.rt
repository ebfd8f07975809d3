// UTF-8 by RFC 3629: the character at a place of a text.
// (A source and a place stay two parameters, as docs/PROVED.md promises: a struct of both would be
// named in each contract and each call, and is no plainer.)
#![tactic(auto)]

mod sequence;

ghost use Rattle.std.specs.Prelude.{◌≡◌, ◌+◌};
ghost use Rattle.utf8.specs.Chars.{char_at, is_stray};

pub use sequence::{byte, sequence_len};

// A character: its code and the number of bytes that it is written in.
#[derive(Clone, Copy)]
pub struct Char {
    pub code: u32,
    pub width: usize,
}

// The character at a place of a text; past the end one of no bytes.
pub fn char_at(s: &[u8], at: usize) -> Char
    ensures { result ≡ char_at s.now at }
{
    if s.len() <= at {
        return Char { code: 0, width: 0 };
    }
    let a = s[at];
    if a < 0x80 {
        let code = a as u32;
        return Char { code, width: 1 };
    }
    sequence::decode(
        a,
        sequence::byte(s, at + 1),
        sequence::byte(s, at + 2),
        sequence::byte(s, at + 3),
    )
}

// The place after the character at a place; at the end, and past it, the place itself. Most
// characters are ASCII: of those only the byte is looked at.
pub fn next_place(s: &[u8], at: usize) -> usize
    ensures { result ≡ at + (char_at s.now at).width }
{
    if at < s.len() && s[at] < 0x80 {
        return at + 1;
    }
    at + char_at(s, at).width
}

// Is a character a byte that starts no well-formed one?
pub fn is_stray(c: Char) -> bool
    ensures { result ≡ is_stray c }
{
    c.width == 1 && c.code == 0xFFFD
}

// The kind of a word: one of the 25 keywords, or an identifier.
#![tactic(auto)]

ghost use Rattle.std.specs.Prelude.{◌≡◌, ◌+◌, ◌-◌, ◌*◌, ◌^◌, ◌≤◌, ◌<◌, length, take};
ghost use Rattle.swar.specs.Number.{number_of};
ghost use Rattle.kinds.specs.Number.{kind_number};
ghost use Rattle.kinds.specs.Table.{ident_token, keywords};
ghost use Rattle.keywords.specs.Search.{slot_of, pair, row_in, by_slot, kind_in};

use kinds::Kind;
use std::array;

// The kind of a word of more than eight bytes.
fn long_word(word: &[u8]) -> Kind
    requires { 8 < length word.now }
    ensures { kind_number result ≡ ident_token word.now }
{
    if word == b"interface".as_slice() {
        return Kind::Interface;
    }
    if word == b"fallthrough".as_slice() {
        return Kind::Fallthrough;
    }
    Kind::Ident
}

// The number whose n bytes are all ones. (A shift by 64 - 8 * n is none for n = 0.)
fn ones(n: usize) -> u64
    requires { n ≤ 8 }
    ensures { result ≡ 2 ^ (8 * n) - 1 }
{
    match n {
        1 => 0xff,
        2 => 0xffff,
        3 => 0xff_ffff,
        4 => 0xffff_ffff,
        5 => 0xff_ffff_ffff,
        6 => 0xffff_ffff_ffff,
        7 => 0xff_ffff_ffff_ffff,
        8 => 0xffff_ffff_ffff_ffff,
        _ => 0,
    }
}

// The number that the first n bytes of a text are.
fn number_of(text: &[u8], n: usize) -> u64
    requires { n ≤ 8 }
    ensures { result ≡ number_of (take n text.now) }
{
    swar::eight(text, 0) & ones(n)
}

// A keyword's kind, and its spelling as a number.
#[derive(Clone, Copy)]
struct Row(Kind, u64);

// The slot of a word by its length and its first two bytes: no two keywords of at most eight bytes
// share one.
fn slot_of(number: u64, n: usize) -> usize
    ensures { result ≡ slot_of number n }
{
    (n % 64 + (number % 256 * 8 + number / 256 % 256 * 59) as usize) % 64
}

// The keyword in a slot; IDENT and 0 where there is none, as the definition and the tables below have
// it. (A match becomes a constant table; an array would be built at each call.)
fn row_in(slot: usize) -> Row
    ensures { pair (kind_number result.0) result.1 ≡ row_in slot keywords }
{
    match slot {
        6 => Row(Kind::Map, 0x70616d),
        7 => Row(Kind::Type, 0x65707974),
        8 => Row(Kind::For, 0x726f66),
        11 => Row(Kind::Switch, 0x686374697773),
        12 => Row(Kind::If, 0x6669),
        14 => Row(Kind::Var, 0x726176),
        15 => Row(Kind::Go, 0x6f67),
        16 => Row(Kind::Else, 0x65736c65),
        17 => Row(Kind::Goto, 0x6f746f67),
        20 => Row(Kind::Chan, 0x6e616863),
        26 => Row(Kind::Struct, 0x746375727473),
        27 => Row(Kind::Break, 0x6b61657262),
        29 => Row(Kind::Return, 0x6e7275746572),
        34 => Row(Kind::Package, 0x6567616b636170),
        37 => Row(Kind::Select, 0x7463656c6573),
        43 => Row(Kind::Func, 0x636e7566),
        44 => Row(Kind::Defer, 0x7265666564),
        45 => Row(Kind::Import, 0x74726f706d69),
        46 => Row(Kind::Default, 0x746c7561666564),
        48 => Row(Kind::Range, 0x65676e6172),
        50 => Row(Kind::Const, 0x74736e6f63),
        53 => Row(Kind::Continue, 0x65756e69746e6f63),
        55 => Row(Kind::Case, 0x65736163),
        _ => Row(Kind::Ident, 0),
    }
}

// The kind of the word that is the first `len` bytes of the text: its keyword, or IDENT.
// A shorter text is the word. Bytes after the word may be read, and change nothing.
pub fn ident_token(text: &[u8], len: usize) -> Kind
    ensures { kind_number result ≡ ident_token (take len text.now) }
{
    let n = len.min(text.len());
    if 8 < n {
        return long_word(&text[..n]);
    }
    let number = number_of(text, n);
    let row = row_in(slot_of(number, n));
    if row.1 == number { row.0 } else { Kind::Ident }
}

// The keywords of at most eight bytes as numbers, each in its slot; 0 where there is none. A loop
// over many words has these tables made once, and does without a call. (They are two arrays, since
// docs/PROVED.md promises both functions and what `kind_in` gives for any two tables.)
pub fn keyword_numbers() -> [u64; 64]
    ensures { result ≡ by_slot (λ slot. (row_in slot keywords).1) }
{
    array::from_fn(|slot| row_in(slot).1)
}

// Their kinds as numbers, each in its slot; IDENT where there is none.
pub fn keyword_kinds() -> [u8; 64]
    ensures { result ≡ by_slot (λ slot. (row_in slot keywords).0) }
{
    array::from_fn(|slot| row_in(slot).0 as u8)
}

// The kind of a word of n bytes by two such tables and the number that the word is. The tables may
// hold any numbers, so what they give is a number and no `Kind`.
pub fn kind_in(numbers: &[u64; 64], kinds: &[u8; 64], number: u64, n: usize) -> u8
    ensures { result ≡ kind_in numbers.now kinds.now number n }
{
    let slot = slot_of(number, n);
    let kind = kinds[slot];
    if numbers[slot] == number {
        kind
    } else {
        Kind::Ident as u8
    }
}

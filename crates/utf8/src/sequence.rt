// The byte sequence that a character is written in.
ghost use Rattle.std.specs.Prelude.{◌≡◌, cond, get_or};
ghost use Rattle.basics.specs.Between.{between};
ghost use Rattle.utf8.specs.Bytes.{announced};
ghost use Rattle.utf8.specs.Steps.{is_tail, low, high, second, sequence, decoded};
ghost use Rattle.utf8.specs.Chars.{code_of};

use crate::Char;

// The length that a first byte announces by its leading one bits, 0 where it announces none. (No
// `Option`: docs/PROVED.md promises this number.)
#[tactic(auto, using(crate::proofs::Bytes::lengths))]
pub fn sequence_len(b: u8) -> usize
    ensures { result ≡ announced b }
{
    match u8::leading_zeros(!b) {
        0 => 1,
        ones @ 2..=4 => ones as usize,
        _ => 0,
    }
}

// Whether a byte is between two others. (Its ends are computed for a second byte, so no pattern
// fits.)
fn within(lo: u8, b: u8, hi: u8) -> bool
    ensures { result ≡ between lo b hi }
{
    lo <= b && b <= hi
}

// The byte at a place, 0 past the end. (`state::number_at` is the same of numbers. One function for
// both would need a trait for their 0, with its law, and is no plainer.)
pub fn byte(s: &[u8], at: usize) -> u8
    ensures { result ≡ get_or s.now at 0 }
{
    s.get(at).copied().unwrap_or(0)
}

// n where t holds, else 0. (A function of its own keeps the branches of its callers few.)
fn choose(t: bool, n: usize) -> usize
    ensures { result ≡ cond t n 0 }
{
    if t { n } else { 0 }
}

// May b come in a character after its first byte?
fn follows(b: u8) -> bool
    ensures { result ≡ is_tail b }
{
    within(0x80, b, 0xBF)
}

// The least second byte after the first byte a.
#[tactic(auto, unfolding(crate::specs::Steps::low))]
fn low_of(a: u8) -> u8
    ensures { result ≡ low a }
{
    match a {
        0xE0 => 0xA0,
        0xF0 => 0x90,
        _ => 0x80,
    }
}

// The greatest second byte after the first byte a.
#[tactic(auto, unfolding(crate::specs::Steps::high))]
fn high_of(a: u8) -> u8
    ensures { result ≡ high a }
{
    match a {
        0xED => 0x9F,
        0xF4 => 0x8F,
        _ => 0xBF,
    }
}

// May b come after the first byte a?
fn second_of(a: u8, b: u8) -> bool
    ensures { result ≡ second a b }
{
    within(low_of(a), b, high_of(a))
}

// The length of the well-formed sequence that four bytes begin with, 0 where they begin with none.
fn sequence_of(a: u8, b: u8, c: u8, d: u8) -> usize
    ensures { result ≡ sequence a b c d }
{
    let n = sequence_len(a);
    if n == 1 {
        return 1;
    }
    if n == 2 {
        return choose(within(0xC2, a, 0xDF), choose(follows(b), 2));
    }
    if n == 3 {
        return choose(second_of(a, b), choose(follows(c), 3));
    }
    if n == 4 {
        return choose(
            within(0xF0, a, 0xF4),
            choose(second_of(a, b), choose(follows(c), choose(follows(d), 4))),
        );
    }
    0
}

// The code that the first n of four bytes stand for: the low bits of each, in order.
fn code_of(n: usize, a: u8, b: u8, c: u8, d: u8) -> u32
    ensures { result ≡ code_of n a b c d }
{
    match n {
        1 => a as u32,
        2 => a as u32 % 32 * 64 + b as u32 % 64,
        3 => a as u32 % 16 * 4096 + b as u32 % 64 * 64 + c as u32 % 64,
        _ => a as u32 % 8 * 262144 + b as u32 % 64 * 4096 + c as u32 % 64 * 64 + d as u32 % 64,
    }
}

// The character that four bytes begin with.
pub(crate) fn decode(a: u8, b: u8, c: u8, d: u8) -> Char
    ensures { result ≡ decoded a b c d }
{
    let n = sequence_of(a, b, c, d);
    if n == 0 {
        return Char {
            code: 0xFFFD,
            width: 1,
        };
    }
    Char {
        code: code_of(n, a, b, c, d),
        width: n,
    }
}

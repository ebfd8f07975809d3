// The bytes that a code is written in.
#![tactic(auto)]

ghost use Rattle.std.specs.Prelude.{◌≡◌, length, get_or};
ghost use Rattle.utf8.specs.Chars.{encode};
ghost use Rattle.encoding.specs.Steps.{digit, lead};

// How many bytes a code is written in, 0 where it is no Unicode scalar value. (No `Option`: it is
// the length of the bytes that docs/DECISIONS.md gives such a code, which are none. And no
// `char::from_u32(code).map_or(0, char::len_utf8)`: it proves, but a loop that writes codes of one
// to three bytes, mixed, to a buffer takes 1.5 times as long with it. Two arms have one answer: where
// they are one, codes of two bytes take a third more time.)
#[tactic(auto, unfolding(utf8::specs::Chars::encode, utf8::specs::Chars::octets))]
pub fn encoded_len(code: u32) -> usize
    ensures { result ≡ length (encode code) }
{
    match code {
        0..=0x7F => 1,
        0x80..=0x7FF => 2,
        0x800..=0xD7FF => 3,
        0xE000..=0xFFFF => 3,
        0x1_0000..=0x10_FFFF => 4,
        _ => 0,
    }
}

// A code without its last six bits, as often as `times` says. (`code >> (6 * times)` proves, but the
// same loop takes 1.6 times as long with it where all codes are of one byte.)
fn digit_of(code: u32, times: usize) -> u32
    ensures { result ≡ digit code times }
{
    match times {
        0 => code,
        1 => code / 64,
        2 => code / 4096,
        _ => code / 262144,
    }
}

// What the first of n bytes adds to the code's first bits.
fn lead_of(n: usize) -> u32
    ensures { result ≡ lead n }
{
    match n {
        1 => 0,
        2 => 0xC0,
        3 => 0xE0,
        _ => 0xF0,
    }
}

// The byte at a place of the bytes that a code is written in, 0 past them.
pub fn encoded_byte(code: u32, k: usize) -> u8
    ensures { result ≡ get_or (encode code) k 0 }
{
    let n = encoded_len(code);
    if n <= k {
        return 0;
    }
    let bits = digit_of(code, n - 1 - k);
    if k == 0 {
        return ((lead_of(n) + bits) % 256) as u8;
    }
    (0x80 + bits % 64) as u8
}

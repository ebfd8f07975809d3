// Eight bytes of a text as one number, the first byte lowest. Tests of all eight at once give such a
// number too: it has a mark, 0x80, in each byte where the test holds, and 0 in the others.
// (A source and a place stay two parameters, as docs/PROVED.md promises: a struct of both would be
// named in each contract and each call, and is no plainer.)
#![tactic(auto)]

ghost use Rattle.std.specs.Prelude.{◌≡◌, ◌+◌, ◌*◌, ◌≤◌, eqb, ltb, leb, length, take, drop};
ghost use Rattle.swar.specs.Number.{number_of};
ghost use Rattle.swar.specs.Lanes.{lanes};
ghost use Rattle.swar.specs.Marks.{mark, ascii_between, before_mark, run_of};

// The number that the bytes from a place on are, where they are at most eight. (The loop is over
// places, since the first may lie past the end.)
fn last_bytes(s: &[u8], at: usize) -> u64
    requires { length s.now ≤ at + 8 }
    ensures { result ≡ number_of (drop at s.now) }
{
    let mut number: u64 = 0;
    for i in (at..s.len()).rev() {
        let byte = s[i] as u64;
        number = number * 256 + byte;
    }
    number
}

// Are there eight bytes at a place?
pub fn has_eight(s: &[u8], at: usize) -> bool
    ensures { result ≡ leb (at + 8) (length s.now) }
{
    if s.len() < 8 {
        return false;
    }
    at <= s.len() - 8
}

// The number that eight bytes are. (Compiled, it is one load.)
fn load(s: &[u8], at: usize) -> u64
    requires { at + 8 ≤ length s.now }
    ensures { result ≡ number_of (take 8 (drop at s.now)) }
{
    u64::from_le_bytes([
        s[at],
        s[at + 1],
        s[at + 2],
        s[at + 3],
        s[at + 4],
        s[at + 5],
        s[at + 6],
        s[at + 7],
    ])
}

// The number that the eight bytes at a place are; where there are fewer, the number of those.
pub fn eight(s: &[u8], at: usize) -> u64
    ensures { result ≡ number_of (take 8 (drop at s.now)) }
{
    if has_eight(s, at) {
        load(s, at)
    } else {
        last_bytes(s, at)
    }
}

// A byte in each of eight.
fn repeated(byte: u8) -> u64
    ensures { result ≡ byte * 0x0101_0101_0101_0101 }
{
    byte as u64 * 0x0101_0101_0101_0101
}

// Marks the bytes that are the one given. Each sum has in its top bit whether a byte's low seven
// bits differ, and never reaches into the next byte.
pub fn mark_byte(eight: u64, byte: u8) -> u64
    ensures { result ≡ lanes 8 (mark (λ b. eqb b byte)) eight }
{
    let apart = eight ^ repeated(byte);
    let sums = (apart & 0x7F7F_7F7F_7F7F_7F7F) + 0x7F7F_7F7F_7F7F_7F7F;
    !(sums | apart) & 0x8080_8080_8080_8080
}

// Marks the ASCII bytes from one to another. The top bit of a sum or a difference with a byte's low
// seven bits has the answer, and none reaches into the next byte.
pub fn mark_between(eight: u64, first: u8, last: u8) -> u64
    ensures { result ≡ lanes 8 (mark (ascii_between first last)) eight }
{
    let low = eight & 0x7F7F_7F7F_7F7F_7F7F;
    let from = repeated(0x80 - first.min(0x80));
    let to = repeated(0x80 + last.min(0x7F));
    (low + from) & (to - low) & !eight & 0x8080_8080_8080_8080
}

// Marks the bytes that are no ASCII.
pub fn mark_high(eight: u64) -> u64
    ensures { result ≡ lanes 8 (mark (ltb 0x7F)) eight }
{
    eight & 0x8080_8080_8080_8080
}

// How many of eight bytes come before the first that is marked.
pub fn before_mark(marks: u64) -> usize
    ensures { result ≡ before_mark 8 marks }
{
    u64::trailing_zeros(marks) as usize / 8
}

// How many of the next eight bytes are the one given, before the first other. (After its end a text
// is taken to have zeros.)
pub fn run_of(s: &[u8], at: usize, byte: u8) -> usize
    ensures { result ≡ run_of byte 8 s.now at }
{
    before_mark(eight(s, at) ^ repeated(byte))
}

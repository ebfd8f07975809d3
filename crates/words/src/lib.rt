// Words: identifiers and keywords. A source and a place in it stay two parameters: docs/PROVED.md
// promises these functions so, and a struct of both, named in each contract and each call, would be
// no plainer.
#![tactic(auto)]

ghost use Rattle.std.specs.Prelude.{◌≡◌, ◌+◌, min, drop};
ghost use Rattle.swar.specs.Lanes.{lanes};
ghost use Rattle.utf8.specs.Chars.{chars};
ghost use Rattle.words.specs.Word.{is_letter, word_len};
ghost use Rattle.words.specs.Marks.{other_mark};
ghost use Rattle.words.specs.Near.{near_run};

#[tactic(auto, unfolding(crate::specs::Word::is_letter))]
pub fn is_letter(b: u8) -> bool
    ensures { result ≡ is_letter b }
{
    matches!(b, b'A'..=b'Z' | b'_' | b'a'..=b'z')
}

// Marks those of eight bytes that are no letters and no digits.
fn others(eight: u64) -> u64
    ensures { result ≡ lanes 8 other_mark eight }
{
    // 0x20 makes a letter lower case
    let letters = swar::mark_between(eight | 0x2020_2020_2020_2020, b'a', b'z');
    let digits = swar::mark_between(eight, b'0', b'9');
    (letters | digits | swar::mark_byte(eight, b'_')) ^ 0x8080_8080_8080_8080
}

// The length of the run of letters and digits at a place, at most eight.
fn run_at(src: &[u8], at: usize) -> usize
    ensures { result ≡ min 8 (word_len (chars (drop at src.now))) }
{
    swar::before_mark(others(swar::eight(src, at)))
}

// The place after the longest run of letters and digits at a place. (The answer would be the same
// without the loop's test. With it, the load of eight bytes needs none. `chunks_exact(8)` is no
// plainer: the answer is the place, so a count would stand beside the chunks, and the last bytes
// are no whole chunk. `quotes::plain_end` has this loop for another test: one for both would take
// the test, and is no plainer, as `spans::is_block` says.)
pub fn word_end(src: &[u8], at: usize) -> usize
    ensures { result ≡ at + word_len (chars (drop at src.now)) }
{
    let mut p = at;
    while swar::has_eight(src, p) {
        let n = run_at(src, p);
        if n < 8 {
            return p + n;
        }
        p += 8;
    }
    p + run_at(src, p)
}

// The run of letters and digits at a place, as far as eight bytes go: its length, and the number
// that its bytes are.
#[derive(Clone, Copy)]
pub struct Near {
    pub len: usize,
    pub number: u64,
}

pub fn near_run(src: &[u8], at: usize) -> Near
    ensures { result ≡ near_run src.now at }
{
    let bytes = swar::eight(src, at);
    let marks = others(bytes);
    if marks == 0 {
        return Near {
            len: 8,
            number: bytes,
        };
    }
    let len = swar::before_mark(marks);
    let bits = 8 * len;
    let above = 1u64 << bits;
    let number = bytes % above;
    Near { len, number }
}

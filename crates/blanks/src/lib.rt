// Blanks between tokens.
// (A source and a place stay two parameters, as docs/PROVED.md promises: a struct of both would be
// named in each contract and each call, and is no plainer.)
#![tactic(auto)]

ghost use Rattle.std.specs.Prelude.{◌≡◌, drop};
ghost use Rattle.utf8.specs.Chars.{chars};
ghost use Rattle.blanks.specs.Blank.{is_space, skip, skipped_at};

// Blanks that were skipped: the place after them, how many line feeds they have, and the place
// after the last of these, if there is one.
#[derive(Clone, Copy)]
pub struct Skipped {
    pub end: usize,
    pub lfs: usize,
    pub line: Option<usize>,
}

// Is a byte a space, a tab or a CR?
#[tactic(auto, unfolding(crate::specs::Blank::is_space))]
pub fn is_space(b: u8) -> bool
    ensures { result ≡ is_space b }
{
    matches!(b, b' ' | b'\t' | b'\r')
}

// Skips blanks byte by byte. The bits of a number tell which bytes up to a space are blanks: 9 and
// 13 (tab, CR), 32 (space), and 10 (LF): one test in place of one for each. The loop is over places,
// since a place is the answer.
fn skip_bytes(src: &[u8], at: usize, mark: bool) -> Skipped
    ensures { result ≡ skipped_at at (skip mark (chars (drop at src.now))) }
{
    let blanks: u64 = if mark { 0x1_0000_2200 } else { 0x1_0000_2600 };
    let mut lfs = 0;
    let mut line = None;
    for end in at..src.len() {
        let b = src[end];
        if b > b' ' {
            return Skipped { end, lfs, line };
        }
        if (blanks >> b) & 1 == 0 {
            return Skipped { end, lfs, line };
        }
        if b == b'\n' {
            lfs += 1;
            line = Some(end + 1);
        }
    }
    let end = at.max(src.len());
    Skipped { end, lfs, line }
}

// Skips blanks; a line feed with tabs after it, the start of most lines, takes one step.
fn skip_line(src: &[u8], at: usize, mark: bool) -> Skipped
    ensures { result ≡ skipped_at at (skip mark (chars (drop at src.now))) }
{
    if (utf8::byte(src, at) == b'\n') & !mark {
        let line = at + 1;
        let end = line + swar::run_of(src, line, b'\t');
        if utf8::byte(src, end) > b' ' {
            return Skipped {
                end,
                lfs: 1,
                line: Some(line),
            };
        }
    }
    skip_bytes(src, at, mark)
}

// Skips blanks; a line feed is one unless the mark is set. Between most tokens there is one space
// or nothing, which takes no loop.
pub fn skip_blanks(src: &[u8], at: usize, mark: bool) -> Skipped
    ensures { result ≡ skipped_at at (skip mark (chars (drop at src.now))) }
{
    let p = if utf8::byte(src, at) == b' ' {
        at + 1
    } else {
        at
    };
    let b = utf8::byte(src, p);
    if (b > b' ') | ((b == b'\n') & mark) {
        return Skipped {
            end: p,
            lfs: 0,
            line: None,
        };
    }
    skip_line(src, p, mark)
}

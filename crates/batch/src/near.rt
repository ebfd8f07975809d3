// Blanks between most tokens: one space or nothing, or a line feed and tabs.
ghost use Rattle.std.specs.Prelude.{◌≡◌, ◌+◌, ◌≤◌, length, get_or};
ghost use Rattle.batch.specs.Near.{line_feed, SpaceTo, NearAt};

// Such blanks: the place after them, and the place after their line feed, if they have one.
#[derive(Clone, Copy)]
pub(crate) struct Near {
    pub(crate) end: usize,
    pub(crate) line: Option<usize>,
}

// The blanks at a place, if they are such. Each test is a branch, so that what follows does not
// wait for the byte.
pub(crate) fn near_blanks(src: &[u8], at: usize, mark: bool) -> Option<Near>
    requires { at + 11 ≤ length src.now }
    ensures { NearAt src.now at mark result }
{
    let mut p = at;
    let mut b = src[p];
    if b == b' ' {
        p += 1;
        b = src[p];
    }
    if b > b' ' {
        return Some(Near { end: p, line: None });
    }
    if b != b'\n' {
        return None;
    }
    line_feed(src, at, p, mark)
}

// The same where a line feed is at the place p, after a space or nothing.
fn line_feed(src: &[u8], at: usize, p: usize, mark: bool) -> Option<Near>
    requires { (p + 10 ≤ length src.now) × (get_or src.now p 0 ≡ line_feed) × SpaceTo src.now at p }
    ensures { NearAt src.now at mark result }
{
    if mark {
        return Some(Near { end: p, line: None });
    }
    let line = p + 1;
    let end = line + swar::run_of(src, line, b'\t');
    if src[end] <= b' ' {
        return None;
    }
    Some(Near {
        end,
        line: Some(line),
    })
}

// How many line starts characters give.
ghost use Rattle.std.specs.Prelude.{◌≡◌, length, take, drop};
ghost use Rattle.utf8.specs.Chars.{chars};
ghost use Rattle.lines.specs.Starts.{starts_read};

use crate::step;

// How many starts the characters at a place give, so many of them. (`write_starts` walks as this
// does. One walk for both would take a closure that may end it, and both contracts would have to
// follow from that closure's steps: that is no plainer.)
pub fn count_starts(src: &[u8], at: usize, count: usize, offset: usize, size: usize) -> usize
    ensures { result ≡ length (starts_read size offset (take count (chars (drop at src.now)))) }
{
    let end = step::end_offset(count, offset, size);
    let mut p = at;
    let mut n = 0;
    for _o in offset..end {
        if src.len() <= p {
            return n;
        }
        let b = src[p];
        p = utf8::next_place(src, p);
        if b == b'\n' {
            n += 1;
        }
    }
    n
}

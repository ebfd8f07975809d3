// Characters of the source.
ghost use Rattle.std.specs.Prelude.{◌≡◌, take, drop};
ghost use Rattle.std.proofs.lemmas.List.Edits.{sets};
ghost use Rattle.utf8.specs.Chars.{chars, encoded};
ghost use Rattle.spans.specs.Body.{clean};
ghost use Rattle.writing.specs.Written.{line_text};
ghost use Rattle.writing.specs.Text.{text};
ghost use Rattle.writing.specs.Writes.{Writes};

use crate::put::{put, put_code};

// Writes the characters at a place, so many of them, with or without CR, and answers the place
// after them. (The loop only counts: a character is found by the place after the one before.)
fn write_chars(src: &[u8], at: usize, count: usize, crs: bool, area: &mut [u8], to: usize) -> usize
    ensures { Writes area.old to (text crs (take count (chars (drop at src.now)))) area.new result }
{
    let mut p = at;
    let mut n = to;
    for _k in 0..count {
        if src.len() <= p {
            return n;
        }
        let c = utf8::char_at(src, p);
        p += c.width;
        let is_cr = c.code == b'\r' as u32;
        if crs | !is_cr {
            n = put_code(area, n, c.code);
        }
    }
    n
}

// The characters at a place, so many of them.
pub fn write_encoded(src: &[u8], at: usize, count: usize, area: &mut [u8], to: usize)
    ensures { area.new ≡ sets area.old to (encoded (take count (chars (drop at src.now)))) }
{
    write_chars(src, at, count, true, area, to);
}

// The same without CR.
pub fn write_clean(src: &[u8], at: usize, count: usize, area: &mut [u8], to: usize)
    ensures { area.new ≡ sets area.old to (clean (take count (chars (drop at src.now)))) }
{
    write_chars(src, at, count, false, area, to);
}

// The characters at a place without CR, and a line feed after them.
pub fn write_line(src: &[u8], at: usize, count: usize, area: &mut [u8], to: usize)
    ensures { area.new ≡ sets area.old to (line_text (take count (chars (drop at src.now)))) }
{
    let n = write_chars(src, at, count, false, area, to);
    put(area, n, b'\n');
}

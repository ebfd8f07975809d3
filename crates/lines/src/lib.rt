// The line starts of characters that are read.
// (A source and a place stay two parameters, as docs/PROVED.md promises, and so do count, offset and
// size: a struct of them would be named in each contract and each call, and is no plainer. The loops
// are over offsets, since a start is one.)
#![tactic(auto)]

mod count;
mod step;

ghost use Rattle.std.specs.Prelude.{◌≡◌, take, drop};
ghost use Rattle.std.proofs.lemmas.List.Edits.{sets};
ghost use Rattle.utf8.specs.Chars.{chars};
ghost use Rattle.lines.specs.Starts.{starts_read};

pub use count::count_starts;

// Writes the starts that the characters at a place give, so many of them, to the table from an
// index on; those past its end are not written.
pub fn write_starts(
    src: &[u8],
    at: usize,
    count: usize,
    offset: usize,
    size: usize,
    table: &mut [usize],
    lines: usize,
)
    ensures { table.new ≡ sets table.old lines (starts_read size offset (take count (chars (drop at src.now)))) }
{
    let end = step::end_offset(count, offset, size);
    let mut p = at;
    let mut n = lines;
    for o in offset..end {
        if src.len() <= p {
            return;
        }
        let b = src[p];
        p = utf8::next_place(src, p);
        if b == b'\n' {
            if table.len() <= n {
                return;
            }
            table[n] = o + 1;
            n += 1;
        }
    }
}

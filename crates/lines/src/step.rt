// What counting and writing line starts have in common: up to where the characters are read.
ghost use Rattle.std.specs.Prelude.{◌≡◌, ◌+◌, ◌-◌, min};

// The offset before which a character can give a start: one that is below the size. So many
// characters are read from an offset on.
pub(crate) fn end_offset(count: usize, offset: usize, size: usize) -> usize
    ensures { result ≡ offset + min count (size - 1 - offset) }
{
    if size <= offset {
        return offset;
    }
    offset + usize::min(count, size - 1 - offset)
}

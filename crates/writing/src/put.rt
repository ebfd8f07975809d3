// One byte, and the bytes of one code. The area and the place are two parameters here: the public
// functions take them so, and a struct of both would only be made at each call and taken apart.
ghost use Rattle.std.specs.Prelude.{[], ◌∷◌};
ghost use Rattle.utf8.specs.Chars.{encode};
ghost use Rattle.writing.specs.Writes.{Writes};

// Writes a byte and answers the place after it; at the area's end nothing is written, and the place
// stays.
pub(crate) fn put(area: &mut [u8], to: usize, b: u8) -> usize
    ensures { Writes area.old to (b ∷ []) area.new result }
{
    if to < area.len() {
        area[to] = b;
        return to + 1;
    }
    to
}

// Writes the bytes of a code and answers the place after them. (The loop is over places, since
// `encoded_byte` takes one.)
pub(crate) fn put_code(area: &mut [u8], to: usize, code: u32) -> usize
    ensures { Writes area.old to (encode code) area.new result }
{
    let mut n = to;
    for k in 0..encoding::encoded_len(code) {
        n = put(area, n, encoding::encoded_byte(code, k));
    }
    n
}

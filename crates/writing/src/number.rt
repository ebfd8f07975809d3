// The text of a number.
ghost use Rattle.std.specs.Prelude.{◌≡◌, cond, eqb, take, drop};
ghost use Rattle.std.proofs.lemmas.List.Edits.{sets};
ghost use Rattle.numbers.specs.Spelling.{lower, number_text};
ghost use Rattle.writing.specs.Writes.{Writes};
ghost use Rattle.writing.specs.Spelled.{lower_exponent, spelled_byte};

use crate::put::put;
use numbers::Spelling;

// A byte that was read after k others, in lower case where it is the second.
fn lower_second(k: usize, b: u8) -> u8
    ensures { result ≡ cond (eqb k 1) (lower b) b }
{
    if k == 1 { b.to_ascii_lowercase() } else { b }
}

// An E as e.
fn lower_exponent(b: u8) -> u8
    ensures { result ≡ lower_exponent b }
{
    if b == b'E' { b'e' } else { b }
}

// Writes what the text has of a byte that was read after k others, and answers the place after it.
fn put_spelled(spelling: Spelling, k: usize, b: u8, area: &mut [u8], to: usize) -> usize
    ensures { Writes area.old to (spelled_byte spelling k b) area.new result }
{
    match spelling {
        Spelling::AsRead => put(area, to, b),
        Spelling::LowerPrefix => put(area, to, lower_second(k, b)),
        Spelling::OctalPrefix => {
            let n = put(area, to, b);
            if k == 0 { put(area, n, b'o') } else { n }
        }
        Spelling::LowerExponent => put(area, to, lower_exponent(b)),
    }
}

// The bytes at a place, so many of them, or as many as there are.
fn bytes_at(src: &[u8], at: usize, count: usize) -> &[u8]
    ensures { result.now ≡ take count (drop at src.now) }
{
    let left = src.get(at..).unwrap_or(&[]);
    left.get(..count).unwrap_or(left)
}

// The text of a number of so many bytes at a place.
pub fn write_number(
    src: &[u8],
    at: usize,
    count: usize,
    spelling: Spelling,
    area: &mut [u8],
    to: usize,
)
    ensures { area.new ≡ sets area.old to (number_text spelling (take count (drop at src.now))) }
{
    let mut n = to;
    for (k, &b) in bytes_at(src, at, count).iter().enumerate() {
        n = put_spelled(spelling, k, b, area, n);
    }
}

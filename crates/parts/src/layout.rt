// A token in ten numbers, a part in three.
ghost use Rattle.std.specs.Prelude.{◌≡◌};
ghost use Rattle.parts.specs.Layout.{token_written, part_in};

use crate::part::Part;
use crate::token::Token;
use state::{bit_of, number_at};

// Writes a token to the first numbers of a slice; one that is too short is left as it is.
pub fn put_token(t: Token, n: &mut [usize])
    ensures { n.new ≡ token_written n.old t }
{
    if n.len() < Token::NUMBERS {
        return;
    }
    n[..Token::NUMBERS].copy_from_slice(&[
        t.kind as usize,
        bit_of(t.inserted),
        t.position,
        t.code as usize,
        bit_of(t.text.area),
        t.text.start,
        t.text.end,
        bit_of(t.value.area),
        t.value.start,
        t.value.end,
    ]);
}

// The part that the numbers from an index on are; any number but 0 says that it is one of the area.
// Numbers that are lacking are 0.
pub fn part_in(n: &[usize], at: usize) -> Part
    ensures { result ≡ part_in n.now at }
{
    let part = n.get(at..).unwrap_or(&[]);
    Part {
        area: number_at(part, 0) != 0,
        start: number_at(part, 1),
        end: number_at(part, 2),
    }
}

// The exported functions for the text and the value of the token that the first ten numbers of a
// slice are. Each answers the part of the source or of the text area that it is, and the number of
// its refusal, or 0. A slice that is too short for a token or an answer is refused by 6, and
// nothing is written.
ghost use Rattle.std.specs.Prelude.{◌≡◌};
ghost use Rattle.queries_c.specs.Parts.{part_at, text_numbers, value_numbers};

use crate::layout::part_numbers;
use parts::{Token, part_in};
use refusal::answered;

// The part at an index among the numbers of a token, if it lies in its buffer.
fn answer_part<'a>(
    src: &'a [u8],
    area: &'a [u8],
    token: &[usize],
    at: usize,
    answer: &mut [usize],
) -> u8
    ensures { record { refusal = result; answer = answer.new }
        ≡ part_at at src.now area.now token.now answer.old }
{
    let part = part_in(token, at);
    let outcome = parts::shown(src, area, part).and(Ok(part_numbers(part)));
    answered(token, Token::NUMBERS, outcome, answer)
}

// The text of a token. The source is the one that was scanned, the area as the token's own scan
// left it.
#[unsafe(no_mangle)]
pub extern "C" fn scanner_text<'a>(
    src: &'a [u8],
    area: &'a [u8],
    token: &[usize],
    answer: &mut [usize],
) -> u8
    ensures { record { refusal = result; answer = answer.new }
        ≡ text_numbers src.now area.now token.now answer.old }
{
    answer_part(src, area, token, Token::TEXT, answer)
}

// The value of a STRING, likewise; a scan gives any other token an empty one.
#[unsafe(no_mangle)]
pub extern "C" fn scanner_value<'a>(
    src: &'a [u8],
    area: &'a [u8],
    token: &[usize],
    answer: &mut [usize],
) -> u8
    ensures { record { refusal = result; answer = answer.new }
        ≡ value_numbers src.now area.now token.now answer.old }
{
    answer_part(src, area, token, Token::VALUE, answer)
}

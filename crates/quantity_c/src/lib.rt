// The number behind the token that the first ten numbers of a slice are, for programs in C.
// It answers m and k, and the number of its refusal, or 0. A slice that is too short for a token or
// an answer is refused by 6, and nothing is written.
#![tactic(auto)]

ghost use Rattle.std.specs.Prelude.{◌≡◌};
ghost use Rattle.quantity_c.specs.Number.{quantity_numbers, number_numbers};
ghost use Rattle.quantity_c.specs.Steps.{kind_of};

use kinds::Kind;
use parts::{Token, part_in};
use quantity::Quantity;
use refusal::answered;
use state::number_at;

// The kind that a number is; a number that is too large for one is no kind.
fn kind_of(n: usize) -> u8
    ensures { result ≡ kind_of n }
{
    u8::try_from(n).unwrap_or(Kind::None as u8)
}

// A quantity in numbers.
fn quantity_numbers(q: Quantity) -> [usize; 2]
    ensures { result ≡ quantity_numbers q }
{
    [q.m as usize, usize::from(q.k)]
}

// The number behind a token that is an INT or a FLOAT. The source is the one that was scanned, the
// area as the token's own scan left it.
#[unsafe(no_mangle)]
pub extern "C" fn scanner_number<'a>(
    src: &'a [u8],
    area: &'a [u8],
    token: &[usize],
    answer: &mut [usize],
) -> u8
    ensures { record { refusal = result; answer = answer.new }
        ≡ number_numbers src.now area.now token.now answer.old }
{
    let kind = kind_of(number_at(token, 0));
    let text = part_in(token, Token::TEXT);
    let outcome = quantity_query::number(src, area, kind, text).map(quantity_numbers);
    answered(token, Token::NUMBERS, outcome, answer)
}

// The digits of a number without the zeros that end it.
ghost use Rattle.std.specs.Prelude.{◌≡◌, ◌*◌, ◌^◌, ◌+◌, length};
ghost use Rattle.digits.specs.Digit.{digit_val};
ghost use Rattle.digits.specs.Base.{base_number};
ghost use Rattle.quantity.specs.Text.{digits_of};
ghost use Rattle.quantity.specs.Whole.{capped};
ghost use Rattle.quantity.specs.Figures.{Stripped};

use crate::whole::{added, scaled};
use digits::Base;

// The digits of a number without the zeros that end it, and how many zeros those are.
#[derive(Clone, Copy)]
pub(crate) struct Figures {
    pub(crate) m: u64,
    pub(crate) zeros: u64,
}

fn digit(b: u8) -> u64
    ensures { result ≡ digit_val b }
{
    u64::from(digits::digit_val(b))
}

// m * base^n + d
fn appended(m: u64, base: Base, n: u64, d: u64) -> Option<u64>
    ensures { result ≡ capped (d + m * base_number base ^ n) }
{
    added(d, scaled(m, base, n))
}

// The digits of a base in a text, if 64 bits hold them without the zeros that end them.
pub(crate) fn read_figures(text: &[u8], base: Base) -> Option<Figures>
    ensures { Stripped (base_number base) (digits_of (base_number base) text.now) (length text.now) result }
{
    let below = u64::from(base.number());
    let mut m = 0;
    let mut zeros = 0;
    for b in text {
        let d = digit(*b);
        if d == 0 {
            zeros += 1;
        } else if d < below {
            m = appended(m, base, zeros + 1, d)?;
            zeros = 0;
        }
    }
    Some(Figures { m, zeros })
}

// Whole numbers of 64 bits: the digits of a base in a text, and products.
ghost use Rattle.std.specs.Prelude.{◌≡◌, ℕ, ◌*◌, ◌^◌, ◌+◌};
ghost use Rattle.digits.specs.Base.{base_number};
ghost use Rattle.quantity.specs.Text.{digits_of};
ghost use Rattle.quantity.specs.Whole.{capped};

use crate::figures::{Figures, read_figures};
use digits::Base;

// m * base^n, if 64 bits hold it.
pub(crate) fn scaled(m: u64, base: Base, n: u64) -> Option<u64>
    ensures { result ≡ capped (m * base_number base ^ n) }
{
    if m == 0 {
        return Some(0);
    }
    // Each factor makes it twice as large, or more.
    if 64 <= n {
        return None;
    }
    u64::from(base.number())
        .checked_pow(n as u32)?
        .checked_mul(m)
}

// a + x, if 64 bits hold x and the sum.
pub(crate) fn added(a: u64, x: Option<u64>) -> Option<u64>
    ensures { (n : ℕ) → x ≡ capped n → result ≡ capped (a + n) }
{
    a.checked_add(x?)
}

// The whole number that the digits of a base in a text form, if 64 bits hold it. It is meant for an
// INT and the base that this is written in. Other bytes count nothing, so it may be given the text
// of a token or the source's own bytes: `0x1F` or `0X1F`, `0o17` or `017`.
pub fn whole_number(text: &[u8], base: Base) -> Option<u64>
    ensures { result ≡ capped (digits_of (base_number base) text.now) }
{
    let Figures { m, zeros } = read_figures(text, base)?;
    scaled(m, base, zeros)
}

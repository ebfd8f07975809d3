// The digits of an escape.
ghost use Rattle.std.specs.Prelude.{◌≡◌, ◌≤◌, drop};
ghost use Rattle.utf8.specs.Chars.{chars};
ghost use Rattle.digits.specs.Base.{base_number};
ghost use Rattle.escapes.specs.EscapeDigits.{escape_digits};
ghost use Rattle.escapes.specs.Steps.{digits_said, whole};

use digits::Base;
use errors::Fault;

// Digits that were read: how many, and their value, or what comes in place of one that is missing.
#[derive(Clone, Copy)]
pub(crate) struct EscapeDigits {
    pub(crate) len: usize,
    pub(crate) value: Result<u32, Fault>,
}

// The value of exactly `count` digits below the base. (The loop is over counts: how many digits it
// read is part of the answer. And whether the byte or a digit is missing decides the fault.)
pub(crate) fn digits_at(src: &[u8], at: usize, base: Base, count: usize) -> EscapeDigits
    requires { count ≤ 8 }
    ensures { digits_said result ≡ whole (escape_digits (base_number base) count 0 (chars (drop at src.now))) }
{
    let radix = base.number();
    let mut value: u32 = 0;
    for len in 0..count {
        let Some(&b) = src.get(at + len) else {
            return EscapeDigits {
                len,
                value: Err(Fault::CutEscape),
            };
        };
        let d = digits::digit_val(b);
        if radix <= d {
            return EscapeDigits {
                len,
                value: Err(Fault::BadEscape),
            };
        }
        value = value * radix as u32 + d as u32;
    }
    EscapeDigits {
        len: count,
        value: Ok(value),
    }
}

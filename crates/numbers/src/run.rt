// Runs of digits with underscores between.
ghost use Rattle.std.specs.Prelude.{◌≡◌, false, drop, ltb};
ghost use Rattle.utf8.specs.Chars.{chars};
ghost use Rattle.digits.specs.Digit.{digit_val};
ghost use Rattle.digits.specs.Base.{base_number};
ghost use Rattle.numbers.specs.Run.{end_of_run, digit_run, strict_run, is_digit_or_underscore, run_len};
ghost use Rattle.numbers.specs.Steps.{digits_at};

use digits::Base;

// An underscore is misplaced at the end of a run of digits.
#[derive(Clone, Copy)]
pub(crate) struct Misplaced {
    pub(crate) end: usize,
}

// Is a byte a digit of a base?
fn is_digit(b: u8, base: Base) -> bool
    ensures { result ≡ ltb (digit_val b) (base_number base) }
{
    digits::digit_val(b) < base.number()
}

// The place after a run, unless an underscore is misplaced there.
fn ended(end: usize, misplaced: bool) -> Result<usize, Misplaced>
    ensures { result ≡ digits_at end (end_of_run misplaced) }
{
    if misplaced {
        Err(Misplaced { end })
    } else {
        Ok(end)
    }
}

// The place after the run at a place: digits below the base, and single underscores. (The loop is
// over places, since a place is the answer.)
pub(crate) fn scan_digits(src: &[u8], at: usize, base: Base) -> Result<usize, Misplaced>
    ensures { result ≡ digits_at at (digit_run (base_number base) false (chars (drop at src.now))) }
{
    let mut under = false;
    for p in at..src.len() {
        let b = src[p];
        if is_digit(b, base) {
            under = false;
        } else if (b == b'_') & !under {
            under = true;
        } else {
            return ended(p, under);
        }
    }
    ended(usize::max(at, src.len()), under)
}

// The same where no underscore may come first.
#[tactic(auto, using(crate::proofs::Runs::strict_under, crate::proofs::Runs::strict_other))]
pub(crate) fn scan_strict_digits(src: &[u8], at: usize, base: Base) -> Result<usize, Misplaced>
    ensures { result ≡ digits_at at (strict_run (base_number base) (chars (drop at src.now))) }
{
    if utf8::byte(src, at) == b'_' {
        return Err(Misplaced { end: at });
    }
    scan_digits(src, at, base)
}

pub(crate) fn is_digit_or_underscore(b: u8) -> bool
    ensures { result ≡ is_digit_or_underscore b }
{
    digits::is_decimal(b) | (b == b'_')
}

// How long the run of digits and underscores is that a text starts with; they may stand in any
// order.
pub(crate) fn run_len(text: &[u8]) -> usize
    ensures { result ≡ run_len (chars text.now) }
{
    text.iter()
        .position(|b| !is_digit_or_underscore(*b))
        .unwrap_or(text.len())
}

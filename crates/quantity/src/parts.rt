// The parts of a decimal number.
ghost use Rattle.std.specs.Prelude.{◌≡◌};
ghost use Rattle.quantity.specs.Text.{first_at, digit_count};

// How many bytes are before the first c.
pub(crate) fn find(text: &[u8], c: u8) -> usize
    ensures { result ≡ first_at c text.now }
{
    text.iter().position(|b| *b == c).unwrap_or(text.len())
}

// How many decimal digits a text has.
pub(crate) fn count_digits(text: &[u8]) -> u64
    ensures { result ≡ digit_count text.now }
{
    text.iter().filter(|b| digits::is_decimal(**b)).count() as u64
}

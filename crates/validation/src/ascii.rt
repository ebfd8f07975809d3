// Blocks of 32 ASCII bytes.
ghost use Rattle.std.specs.Prelude.{◌≡◌};
ghost use Rattle.validation.specs.Steps.{ascii_block};

// Are there 32 bytes at a place, all of them below 128?
pub(crate) fn is_block(s: &[u8], at: usize) -> bool
    ensures { result ≡ ascii_block s.now at }
{
    if s.len() < 32 {
        return false;
    }
    if s.len() - 32 < at {
        return false;
    }
    s[at..at + 32].is_ascii()
}

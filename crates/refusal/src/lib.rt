// Why a call is refused, and the test for slices that are too short.
#![tactic(auto)]

mod answer;
mod short;

ghost use Rattle.std.specs.Prelude.{◌≡◌};
ghost use Rattle.refusal.specs.Outcome.{refusal_number};

pub use answer::answered;
pub use short::too_short;

// Why a call is refused.
#[derive(Clone, Copy, PartialEq, Eq)]
pub enum Refusal {
    // ---- From the input.
    // Opening: not UTF-8.
    NotUtf8 = 1,
    // Opening: too long.
    TooLong,
    // A size below the number of characters, or base + size too large; a scan: an offset would pass
    // the size.
    BadSize,
    // A position outside base to base + size.
    NoPosition,
    // Line 0 or above the count.
    NoLine,
    // ---- From the state.
    // The state, or a part of a token, does not fit what a call is lent, or a slice of numbers is
    // too short.
    DoesNotFit,
    // More line starts than the table holds.
    TableFull,
    // An error and a full list.
    ListFull,
    // More bytes of text and value to be written than the text area holds.
    AreaFull,
    // ---- From a token.
    // The token is neither INT nor FLOAT, or no scan gives that kind such a text.
    NoNumber,
    // No m below 2^64 and k up to 18 for the number behind a literal.
    NoPair,
}

impl Refusal {
    // The number of a refusal, for C and for the listing in numbers. It is never 0.
    #[tactic(auto, using(crate::proofs::Numbers::refusal_tag))]
    pub fn number(self) -> u8
        ensures { result ≡ refusal_number self }
    {
        self as u8
    }
}

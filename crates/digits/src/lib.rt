// Digits, and the bases of numbers.
#![tactic(auto)]

ghost use Rattle.std.specs.Prelude.{◌≡◌};
ghost use Rattle.digits.specs.Digit.{digit_val, is_decimal};
ghost use Rattle.digits.specs.Base.{base_number};

// The number of a hexadecimal digit, 16 for any other byte. (No `Option`: docs/PROVED.md promises
// this number, and a test for a digit of any base is one comparison with it.)
#[tactic(auto, using(crate::proofs::Digits::ranges))]
pub fn digit_val(b: u8) -> u8
    ensures { result ≡ digit_val b }
{
    match b {
        b'0'..=b'9' => b - b'0',
        b'A'..=b'F' => b - b'A' + 10,
        b'a'..=b'f' => b - b'a' + 10,
        _ => 16,
    }
}

// The base of a number.
#[derive(Clone, Copy, PartialEq, Eq)]
pub enum Base {
    Binary = 2,
    Octal = 8,
    Decimal = 10,
    Hexadecimal = 16,
}

impl Base {
    // The number of a base.
    pub fn number(self) -> u8
        ensures { result ≡ base_number self }
    {
        self as u8
    }
}

pub fn is_decimal(b: u8) -> bool
    ensures { result ≡ is_decimal b }
{
    b.is_ascii_digit()
}

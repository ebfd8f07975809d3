// What is wrong with a recipe.
ghost use Rattle.std.specs.Prelude.{Result};
ghost use Rattle.errors.specs.Numbered.{Numbered};

// A fault of a token. The number of its error is `fault as usize`, from 1; 0 means no error.
#[derive(Clone, Copy, PartialEq, Eq)]
pub enum Fault {
    // Binary, octal and hexadecimal numbers without a digit, or with a digit above their base.
    BadBinary = 1,
    BadOctal,
    BadHexadecimal,
    // An underscore in a number that is neither between digits nor after a prefix.
    MisplacedUnderscore,
    // An exponent without digits.
    BadExponent,
    // What is not closed: a raw string, a comment, a string or character literal.
    OpenRawString,
    OpenComment,
    OpenQuote,
    // Escapes: an unknown one, one that the end cuts, one with a bad character, one of no byte or
    // of no Unicode code point.
    UnknownEscape,
    CutEscape,
    BadEscape,
    NoCodePoint,
    // A character literal that has not exactly one character.
    NotOneCharacter,
    // No token: a character that starts none, or two points without a third.
    UnknownToken,
}

// A number that is the number of no fault. (`kinds::UnknownKind` holds a byte, as a token does, and
// an error's number is a `usize`.)
#[derive(Clone, Copy, PartialEq, Eq)]
pub struct UnknownFault(pub usize);

impl TryFrom<usize> for Fault {
    type Error = UnknownFault;

    ghost try_from_gives = { Numbered };

    fn try_from(number: usize) -> Result<Self, UnknownFault> {
        match number {
            1 => Ok(Fault::BadBinary),
            2 => Ok(Fault::BadOctal),
            3 => Ok(Fault::BadHexadecimal),
            4 => Ok(Fault::MisplacedUnderscore),
            5 => Ok(Fault::BadExponent),
            6 => Ok(Fault::OpenRawString),
            7 => Ok(Fault::OpenComment),
            8 => Ok(Fault::OpenQuote),
            9 => Ok(Fault::UnknownEscape),
            10 => Ok(Fault::CutEscape),
            11 => Ok(Fault::BadEscape),
            12 => Ok(Fault::NoCodePoint),
            13 => Ok(Fault::NotOneCharacter),
            14 => Ok(Fault::UnknownToken),
            _ => Err(UnknownFault(number)),
        }
    }
}

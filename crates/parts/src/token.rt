// A token, and its text and value as parts of the source or of the text area.
ghost use Rattle.std.specs.Prelude.{◌≡◌};
ghost use Rattle.parts.specs.Shown.{shown_as};
ghost use Rattle.parts.specs.Text.{text_shown, value_shown};

use crate::part::{Part, shown};
use refusal::Refusal;

#[derive(Clone, Copy)]
pub struct Token {
    // a number and no `Kind`: docs/PROVED.md promises what `put_token`, `text` and `value` do with
    // any number
    pub kind: u8,
    // a semicolon that is not in the text
    pub inserted: bool,
    pub position: usize,
    // the code point of a CHAR, 0 of any other token: C has this number
    pub code: u32,
    pub text: Part,
    // the value of a STRING
    pub value: Part,
}

impl Token {
    // How many numbers a token is, and from where on the parts of its text and value are.
    pub const NUMBERS: usize = 10;

    pub const TEXT: usize = 4;

    pub const VALUE: usize = 7;
}

// Give these two the source that was scanned, and the area as the token's own scan left it.

// The text of a token. A scan gives operators, keywords and EOF an empty one.
pub fn text<'a>(src: &'a [u8], area: &'a [u8], token: Token) -> Result<&'a [u8], Refusal>
    ensures { shown_as result ≡ text_shown src.now area.now token }
{
    shown(src, area, token.text)
}

// The value of a STRING; a scan gives any other token an empty one.
pub fn value<'a>(src: &'a [u8], area: &'a [u8], token: Token) -> Result<&'a [u8], Refusal>
    ensures { shown_as result ≡ value_shown src.now area.now token }
{
    shown(src, area, token.value)
}

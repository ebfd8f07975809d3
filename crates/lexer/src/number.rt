// Numbers.
ghost use Rattle.std.specs.Prelude.{◌≡◌, true, ◌≤◌, length, drop};
ghost use Rattle.utf8.specs.Chars.{chars};
ghost use Rattle.lexer.specs.Words.{lex_number};
ghost use Rattle.lexer.specs.Making.{is_number};
ghost use Rattle.lexer.specs.Placed.{said, placed};
ghost use Rattle.lexer.specs.Made.{gained_by, respelled_by};

use crate::lexed::{Lexed, Shown, Text, bare};
use numbers::Spelling;

// How many bytes the text of a number has more than was read.
fn gained(spelling: Spelling) -> usize
    ensures { result ≡ gained_by spelling }
{
    usize::from(matches!(spelling, Spelling::OctalPrefix))
}

// Is the text of a number other than what was read?
fn respelled(spelling: Spelling) -> bool
    ensures { result ≡ respelled_by spelling }
{
    !matches!(spelling, Spelling::AsRead)
}

// The number at a place that holds a digit, or a point before one.
pub(crate) fn lex_number(src: &[u8], at: usize) -> Lexed
    requires { (at ≤ length src.now) × (is_number (chars (drop at src.now)) ≡ true) }
    ensures { said src.now at result ≡ placed src.now at (lex_number (chars (drop at src.now))) }
{
    let n = numbers::scan_number(src, at);
    let chars = n.end - at;
    let text = Shown {
        bytes: chars + gained(n.spelling),
        making: Text::Number(n.spelling),
        differs: respelled(n.spelling),
    };
    Lexed {
        error: n.error,
        text,
        ..bare(n.kind, n.end, chars, true)
    }
}

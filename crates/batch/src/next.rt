// What comes of a simple token.
ghost use Rattle.std.specs.Prelude.{◌≡◌};
ghost use Rattle.batch.specs.Simple.{simple_token};

use crate::start::Start;
use parts::{Part, Token};

// A simple token, the place after it, and the mark that it leaves.
#[derive(Clone, Copy)]
pub(crate) struct Next {
    pub(crate) token: Token,
    pub(crate) place: usize,
    pub(crate) mark: bool,
}

// A token without a value; its text is the source's bytes from its start to an end.
pub(crate) fn simple_token(start: Start<'_>, kind: u8, inserted: bool, end: usize) -> Token
    ensures { result ≡ simple_token kind inserted start.entry.position start.entry.at end }
{
    Token {
        kind,
        inserted,
        position: start.position,
        code: 0,
        text: Part {
            area: false,
            start: start.at,
            end,
        },
        value: Part {
            area: false,
            start: start.at,
            end: start.at,
        },
    }
}

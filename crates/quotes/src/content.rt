// What is read of the body of a quoted literal.
ghost use Rattle.std.specs.Prelude.{◌≡◌, ◌+◌, ◌<◌, ◌^◌};
ghost use Rattle.escapes.specs.Answers.{code_of, is_byte};
ghost use Rattle.quotes.specs.Steps.{added, escape_piece, char_piece, plain_piece};

use escapes::Given;

// What was read of a body, or of a piece of it: an escape, a character, or a run of characters that
// are written as themselves.
#[derive(Clone, Copy)]
pub struct Content {
    // how many characters were read
    pub chars: usize,
    // how many characters the literal has by them, and the code of its first
    pub count: usize,
    pub code: u32,
    // is one of them written as an escape
    pub escaped: bool,
    // how many of them are stray bytes
    pub strays: usize,
    // how many bytes the value has, each stray byte counted as one, though its U+FFFD has three: so
    // the number always fits
    pub bytes: usize,
}

impl Content {
    // Before the first character.
    pub(crate) const NOTHING: Content = Content {
        chars: 0,
        count: 0,
        code: 0,
        escaped: false,
        strays: 0,
        bytes: 0,
    };

    // An escape of n characters.
    pub(crate) fn escape(n: usize, given: Given) -> Content
        ensures { result ≡ escape_piece n (code_of given) (is_byte given) }
    {
        let (code, bytes) = match given {
            Given::Char(code) => (code, encoding::encoded_len(code)),
            Given::Byte(byte) => (byte as u32, 1),
        };
        Content {
            chars: n,
            count: 1,
            code,
            escaped: true,
            strays: 0,
            bytes,
        }
    }

    // A character that is written as itself.
    pub(crate) fn char(c: utf8::Char) -> Content
        ensures { result ≡ char_piece c }
    {
        Content {
            chars: 1,
            count: 1,
            code: c.code,
            escaped: false,
            strays: usize::from(utf8::is_stray(c)),
            bytes: c.width,
        }
    }

    // A run of n such characters of one byte, by the first.
    pub(crate) fn run(n: usize, b: u8) -> Content
        ensures { result ≡ plain_piece n b }
    {
        Content {
            chars: n,
            count: n,
            code: b as u32,
            escaped: false,
            strays: 0,
            bytes: n,
        }
    }

    // This with a piece after it.
    #[tactic(auto, unfolding(crate::specs::Steps::added))]
    pub(crate) fn with(self, piece: Content) -> Content
        requires { (self.chars + piece.chars < 2 ^ 64) × (self.count + piece.count < 2 ^ 64) × (self.strays + piece.strays < 2 ^ 64) × (self.bytes + piece.bytes < 2 ^ 64) }
        ensures { result ≡ added self piece }
    {
        Content {
            chars: self.chars + piece.chars,
            count: self.count + piece.count,
            code: if self.count == 0 {
                piece.code
            } else {
                self.code
            },
            escaped: piece.escaped | self.escaped,
            strays: self.strays + piece.strays,
            bytes: self.bytes + piece.bytes,
        }
    }
}

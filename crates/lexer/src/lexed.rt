// What is said of a token that was read, and the tokens of ASCII characters alone.
ghost use Rattle.std.specs.Prelude.{◌≡◌, false};
ghost use Rattle.lexer.specs.declared.lexed.Text.TheVariants.{Empty};
ghost use Rattle.lexer.specs.Made.{bare_as, read_as, unknown_as, inserted_at, shown_as};

use errors::Fault;
use kinds::Kind;

// How the text of a token is made of the characters read.
#[derive(Clone, Copy)]
pub enum Text {
    Empty,
    AsRead,
    Number(numbers::Spelling),
    WithoutCr,
    // without CR, and a line feed at the end
    WithLf,
}

// How the value of a token is made: there is none, or it is that of an interpreted or of a raw
// string.
#[derive(Clone, Copy)]
pub enum Value {
    Empty,
    Interpreted,
    Raw,
}

// What is shown of a token: its text or its value.
#[derive(Clone, Copy)]
pub struct Shown<T> {
    // how many bytes it has; a stray byte in one that differs from the source's bytes counts once,
    // though it is written in three: so the number always fits
    pub bytes: usize,
    pub making: T,
    // is it other bytes than those of the source?
    pub differs: bool,
}

// A token that was read at a place.
#[derive(Clone, Copy)]
pub struct Lexed {
    // the place after it
    pub end: usize,
    // how many characters it has, and how many of them are line feeds and stray bytes
    pub chars: usize,
    pub lfs: usize,
    pub strays: usize,
    pub kind: Kind,
    // a semicolon that is not in the text
    pub inserted: bool,
    // the pending mark that it leaves
    pub mark: bool,
    pub error: Option<Fault>,
    // the code point of a CHAR, and 0 of any other token: the number that a token is given
    pub code: u32,
    pub text: Shown<Text>,
    pub value: Shown<Value>,
}

// A token without a text, of ASCII characters, no line feed among them, by the place after it: an
// operator, a keyword, the end.
pub(crate) fn bare(kind: Kind, end: usize, chars: usize, mark: bool) -> Lexed
    ensures { result ≡ bare_as kind end chars mark }
{
    Lexed {
        end,
        chars,
        lfs: 0,
        strays: 0,
        kind,
        inserted: false,
        mark,
        error: None,
        code: 0,
        text: Shown {
            bytes: 0,
            making: Text::Empty,
            differs: false,
        },
        value: Shown {
            bytes: 0,
            making: Value::Empty,
            differs: false,
        },
    }
}

// A token whose text is the ASCII characters read.
pub(crate) fn as_read(kind: Kind, end: usize, chars: usize, mark: bool) -> Lexed
    ensures { result ≡ read_as kind end chars mark }
{
    let text = Shown {
        bytes: chars,
        making: Text::AsRead,
        differs: false,
    };
    Lexed {
        text,
        ..bare(kind, end, chars, mark)
    }
}

// ASCII characters that are no token.
pub(crate) fn unknown_token(end: usize, chars: usize, mark: bool) -> Lexed
    ensures { result ≡ unknown_as end chars mark }
{
    Lexed {
        error: Some(Fault::UnknownToken),
        ..as_read(Kind::Illegal, end, chars, mark)
    }
}

// A semicolon that is not in the text.
pub(crate) fn inserted_semicolon(at: usize) -> Lexed
    ensures { result ≡ inserted_at at }
{
    Lexed {
        inserted: true,
        ..bare(Kind::Semicolon, at, 0, false)
    }
}

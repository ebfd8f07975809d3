// Identifiers and keywords.
ghost use Rattle.std.specs.Prelude.{◌≡◌, ◌≤◌, true, length, drop, get_or};
ghost use Rattle.utf8.specs.Chars.{chars};
ghost use Rattle.words.specs.Word.{is_letter};
ghost use Rattle.lexer.specs.Words.{lex_word};
ghost use Rattle.lexer.specs.Placed.{said, placed};

use crate::lexed::{Lexed, as_read, bare};
use kinds::Kind;

// The word at a place that holds a letter.
pub(crate) fn lex_word(src: &[u8], at: usize) -> Lexed
    requires { (at ≤ length src.now) × (is_letter (get_or src.now at 0) ≡ true) }
    ensures { said src.now at result ≡ placed src.now at (lex_word (chars (drop at src.now))) }
{
    let end = words::word_end(src, at);
    let len = end - at;
    let kind = keywords::ident_token(&src[at..], len);
    if kind == Kind::Ident {
        return as_read(kind, end, len, true);
    }
    bare(kind, end, len, kinds::sets_mark(kind as u8))
}

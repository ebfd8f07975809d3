// Words given as simple tokens.
ghost use Rattle.std.specs.Prelude.{◌≡◌};
ghost use Rattle.kinds.specs.Table.{sets_mark};
ghost use Rattle.batch.specs.Simple.{word_token, StartsWord, GivesSimple};

use crate::next::{Next, simple_token};
use crate::start::Start;
use crate::tables::Tables;
use kinds::Kind;

// Gives the word of a kind, by the number that the tables of keywords and a token hold; only an
// identifier has a text.
fn give_word(start: Start<'_>, kind: u8, end: usize) -> Next
    ensures { result ≡ record { token = word_token kind start.entry.position start.entry.at end; place = end; mark = sets_mark kind } }
{
    let text_end = if kind == Kind::Ident as u8 {
        end
    } else {
        start.at
    };
    Next {
        token: simple_token(start, kind, false, text_end),
        place: end,
        mark: kinds::sets_mark(kind),
    }
}

// Gives the word at a place, of whatever length.
fn long_word(start: Start<'_>) -> Option<Next>
    requires { StartsWord start }
    ensures { GivesSimple start.entry result }
{
    let end = words::word_end(start.src, start.at);
    if start.safe <= end {
        return None;
    }
    let kind = keywords::ident_token(&start.src[start.at..], end - start.at);
    Some(give_word(start, kind as u8, end))
}

// Gives the word at a place; one of fewer than eight bytes is searched among the keywords as a
// number.
pub(crate) fn word(start: Start<'_>, tables: &Tables) -> Option<Next>
    requires { StartsWord start }
    ensures { GivesSimple start.entry result }
{
    let run = words::near_run(start.src, start.at);
    let n = run.len;
    if n == 8 {
        return long_word(start);
    }
    let kind = tables.word_kind(run.number, n);
    Some(give_word(start, kind, start.at + n))
}

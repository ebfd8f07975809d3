// The tables by which simple tokens are told.
ghost use Rattle.std.specs.Prelude.{◌≡◌};
ghost use Rattle.keywords.specs.Search.{kind_in};
ghost use Rattle.batch.specs.Simple.{first_of, IsTable, keyword_in, IsKeywords};

use crate::first::First;
use kinds::Kind;

// What each first byte tells, and the keywords of at most eight bytes, by number and kind in
// their slots. A call builds them once. (The kinds of keywords are numbers, as `kind_in` takes
// them.)
#[derive(Drop)]
pub(crate) struct Tables {
    firsts: [First; 256],
    keys: [u64; 64],
    values: [u8; 64],
    ghost firsts_told: { IsTable firsts },
    ghost keywords_told: { IsKeywords keys values },
}

impl Tables {
    pub(crate) fn new() -> Self {
        Tables {
            firsts: firsts(),
            keys: keywords::keyword_numbers(),
            values: keywords::keyword_kinds(),
        }
    }

    // What a first byte tells.
    pub(crate) fn first(&self, b: u8) -> First
        ensures { result ≡ first_of b }
    {
        self.firsts[b as usize]
    }

    // The kind of a word of n bytes, by the number that they are.
    pub(crate) fn word_kind(&self, number: u64, n: usize) -> u8
        ensures { result ≡ keyword_in number n }
    {
        keywords::kind_in(&self.keys, &self.values, number, n)
    }
}

// What each first byte tells. (A call stores some 80 bytes that tell something, where it would come to
// a `match` for each of the 256.)
fn firsts() -> [First; 256]
    ensures { IsTable result }
{
    let mut table = [First::Other; 256];
    table[b'\n' as usize] = First::LineFeed;
    table[b'!' as usize] = First::Operator;
    table[b'"' as usize] = First::Quote;
    table[b'%' as usize] = First::Operator;
    table[b'&' as usize] = First::Operator;
    table[b'(' as usize] = First::Delimiter(Kind::Lparen);
    table[b')' as usize] = First::Delimiter(Kind::Rparen);
    table[b'*' as usize] = First::Operator;
    table[b'+' as usize] = First::Operator;
    table[b',' as usize] = First::Delimiter(Kind::Comma);
    table[b'-' as usize] = First::Operator;
    table[b'.' as usize] = First::Point;
    table[b':' as usize] = First::Operator;
    table[b';' as usize] = First::Delimiter(Kind::Semicolon);
    table[b'<' as usize] = First::Operator;
    table[b'=' as usize] = First::Operator;
    table[b'>' as usize] = First::Operator;
    table[b'[' as usize] = First::Delimiter(Kind::Lbrack);
    table[b']' as usize] = First::Delimiter(Kind::Rbrack);
    table[b'^' as usize] = First::Operator;
    table[b'_' as usize] = First::Letter;
    table[b'{' as usize] = First::Delimiter(Kind::Lbrace);
    table[b'|' as usize] = First::Operator;
    table[b'}' as usize] = First::Delimiter(Kind::Rbrace);
    for capital in b'A'..=b'Z' {
        table[capital as usize] = First::Letter;
    }
    for small in b'a'..=b'z' {
        table[small as usize] = First::Letter;
    }
    for digit in b'0'..=b'9' {
        table[digit as usize] = First::Digit;
    }
    table
}

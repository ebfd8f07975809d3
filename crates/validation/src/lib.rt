// The check of a text: is it UTF-8 by RFC 3629?
#![tactic(auto)]

mod ascii;

ghost use Rattle.std.specs.Prelude.{◌≡◌};
ghost use Rattle.validation.specs.Answers.{checking_of, checked_of};

// A text that is not UTF-8: the place of a byte that belongs to no well-formed character.
#[derive(Clone, Copy, PartialEq, Eq)]
pub struct NotUtf8 {
    pub place: usize,
}

// The number of characters of a text: blocks of ASCII are counted at once, and what lies between
// them character by character.
pub fn check(s: &[u8]) -> Result<usize, NotUtf8>
    ensures { checking_of result ≡ checked_of s.now }
{
    let mut at = 0;
    let mut count = 0;
    // up to here no block of ASCII starts
    let mut tried = 0;
    // A step goes over one character, or over 32 bytes, so no `for` fits.
    while at < s.len() {
        if tried <= at {
            if ascii::is_block(s, at) {
                at += 32;
                count += 32;
                continue;
            }
            tried = at + 32;
        }
        let c = utf8::char_at(s, at);
        if utf8::is_stray(c) {
            return Err(NotUtf8 { place: at });
        }
        at += c.width;
        count += 1;
    }
    Ok(count)
}

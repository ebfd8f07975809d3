// The bodies of character literals and strings.
ghost use Rattle.std.specs.Prelude.{◌≡◌, ◌+◌, ◌<◌, ◌^◌, is_none};
ghost use Rattle.errors.specs.Faults.{error_number};
ghost use Rattle.quotes.specs.Body.{quoted_said, quoted_at};
ghost use Rattle.quotes.specs.Literal.{double_quote, single_quote};
ghost use Rattle.quotes.specs.Steps.{quote_code, body_end};

use crate::plain::{Quote, plain_end};
use crate::{Content, Quoted};
use errors::Fault;
use escapes::escape_at;

// The end of the body, after n characters more.
#[tactic(auto, unfolding(crate::specs::Steps::body_end))]
fn stop(content: Content, end: usize, n: usize, error: Option<Fault>) -> Quoted
    requires { content.chars + n < 2 ^ 64 }
    ensures { quoted_said result ≡ body_end content end n (is_none error) (error_number error) }
{
    let chars = content.chars + n;
    let content = Content { chars, ..content };
    Quoted {
        end,
        error,
        content,
    }
}

// The body at a place, closed by the quote given.
// An index loop: a step goes over an escape, a run or a character, so no `for` fits.
fn body_at(src: &[u8], at: usize, quote: Quote) -> Quoted
    ensures { quoted_said result ≡ quoted_at (quote_code quote) src.now at }
{
    let close = quote.byte();
    let mut content = Content::NOTHING;
    let mut p = at;
    while p < src.len() {
        let b = src[p];
        if b == close {
            return stop(content, p + 1, 1, None);
        }
        if b == b'\n' {
            return stop(content, p, 0, Some(Fault::OpenQuote));
        }
        if b == b'\\' {
            let e = escape_at(src, p + 1, close);
            let n = e.len + 1;
            let Ok(given) = e.given else {
                return stop(content, p + n, n, e.given.err());
            };
            content = content.with(Content::escape(n, given));
            p += n;
        } else if b < 128 {
            let n = plain_end(src, p + 1, quote) - p;
            content = content.with(Content::run(n, b));
            p += n;
        } else {
            let c = utf8::char_at(src, p);
            content = content.with(Content::char(c));
            p += c.width;
        }
    }
    stop(content, p, 0, Some(Fault::OpenQuote))
}

// The body of a string, from a place after its opening quote.
pub fn string_body(src: &[u8], at: usize) -> Quoted
    ensures { quoted_said result ≡ quoted_at double_quote src.now at }
{
    body_at(src, at, Quote::Double)
}

// The body of a character literal, from a place after its opening quote.
pub fn char_body(src: &[u8], at: usize) -> Quoted
    ensures { quoted_said result ≡ quoted_at single_quote src.now at }
{
    body_at(src, at, Quote::Single)
}

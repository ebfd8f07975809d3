// Bodies of raw strings and comments: where they end, and what they hold.
ghost use Rattle.std.specs.Prelude.{◌≡◌, ◌<◌, length, drop};
ghost use Rattle.utf8.specs.Chars.{char_at, chars};
ghost use Rattle.spans.specs.Body.{stop_body, raw_body, line_body, block_body};
ghost use Rattle.spans.specs.Steps.{empty_at, grown};
ghost use Rattle.spans.specs.Counted.{Counted};

use crate::plain;

// What is read of a body: where it ends, how many characters it has, whether its closing was read,
// and how many of its characters are LFs, CRs and stray bytes. (`closed` is no flag of another field:
// all of them count in both cases.)
#[derive(Clone, Copy)]
pub struct Body {
    pub end: usize,
    pub chars: usize,
    pub closed: bool,
    pub lfs: usize,
    pub crs: usize,
    pub strays: usize,
}

// A body of which nothing is read yet.
fn empty(at: usize) -> Body
    ensures { result ≡ empty_at at }
{
    Body {
        end: at,
        chars: 0,
        closed: false,
        lfs: 0,
        crs: 0,
        strays: 0,
    }
}

// One more character of a body, the one at its end; `last` says that it closes the body.
fn grow(src: &[u8], body: Body, last: bool) -> Body
    requires { (body.end < length src.now) × Counted body }
    ensures { result ≡ grown body (char_at src.now body.end) last }
{
    let at = body.end;
    let b = src[at];
    let chars = body.chars + 1;
    if b < 128 {
        let end = at + 1;
        let lfs = body.lfs + usize::from(b == b'\n');
        let crs = body.crs + usize::from(b == b'\r');
        return Body {
            end,
            chars,
            closed: last,
            lfs,
            crs,
            ..body
        };
    }
    let c = utf8::char_at(src, at);
    let end = at + c.width;
    let strays = body.strays + usize::from(utf8::is_stray(c));
    Body {
        end,
        chars,
        closed: last,
        strays,
        ..body
    }
}

// A body to the first ASCII character `stop`, or to the end.
// An index loop: a step goes over a block, a run or a character, so no `for` fits.
fn body_to(src: &[u8], at: usize, stop: u8) -> Body
    requires { stop < 128 }
    ensures { result ≡ stop_body stop at (chars (drop at src.now)) }
{
    let mut body = empty(at);
    while body.end < src.len() {
        let p = body.end;
        if plain::is_block(src, p, stop) {
            body.end = p + 16;
            body.chars += 16;
            continue;
        }
        let n = plain::run_len(src, p, stop);
        body.end = p + n;
        body.chars += n;
        if n < 8 {
            let closes = src[p + n] == stop;
            body = grow(src, body, closes);
            if closes {
                return body;
            }
        }
    }
    body
}

// Of a raw string, from after its opening backquote.
pub fn raw_body(src: &[u8], at: usize) -> Body
    ensures { result ≡ raw_body at (chars (drop at src.now)) }
{
    body_to(src, at, b'`')
}

// Of a line comment, from after its two slashes.
pub fn line_body(src: &[u8], at: usize) -> Body
    ensures { result ≡ line_body at (chars (drop at src.now)) }
{
    body_to(src, at, b'\n')
}

// Of a general comment, from after its opening.
// An index loop: a step goes over a block or a character, so no `for` fits.
pub fn block_body(src: &[u8], at: usize) -> Body
    ensures { result ≡ block_body at (chars (drop at src.now)) }
{
    let mut body = empty(at);
    let mut star = false;
    // before this place no block of plain bytes is tried again
    let mut tried = at;
    while body.end < src.len() {
        let p = body.end;
        if !star & (tried <= p) {
            if plain::is_block(src, p, b'*') {
                body.end = p + 16;
                body.chars += 16;
                continue;
            }
            tried = p + 16;
        }
        let b = src[p];
        let closes = star & (b == b'/');
        body = grow(src, body, closes);
        if closes {
            return body;
        }
        star = b == b'*';
    }
    body
}

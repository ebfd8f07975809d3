// ASCII characters that are written as themselves, and the quotes that end their runs.
ghost use Rattle.std.specs.Prelude.{◌≡◌, ◌+◌, ◌≤◌, min, length, drop};
ghost use Rattle.std.specs.List.{prefix_len};
ghost use Rattle.swar.specs.Lanes.{lanes};
ghost use Rattle.quotes.specs.Literal.{double_quote};
ghost use Rattle.quotes.specs.Plain.{is_plain_byte, plain_len};
ghost use Rattle.quotes.specs.Steps.{quote_code, stop_mark};

// The quote of a literal.
#[derive(Clone, Copy)]
pub(crate) enum Quote {
    Single,
    Double,
}

impl Quote {
    pub(crate) fn byte(self) -> u8
        ensures { result ≡ quote_code self }
    {
        match self {
            Quote::Single => b'\'',
            Quote::Double => b'"',
        }
    }
}

// Is a byte an ASCII character that is written as itself?
#[tactic(auto, unfolding(crate::specs::Plain::is_plain_byte), using(std::proofs::lemmas::Bool::Decides::nat_tests))]
fn is_plain(b: u8, quote: Quote) -> bool
    ensures { result ≡ is_plain_byte (quote_code quote) b }
{
    b != quote.byte() && b != b'\n' && b != b'\\' && b < 128
}

// How many such characters a text begins with; byte by byte.
fn plain_run(s: &[u8], quote: Quote) -> usize
    ensures { result ≡ prefix_len (is_plain_byte (quote_code quote)) s.now }
{
    s.iter().take_while(|b| is_plain(**b, quote)).count()
}

// Marks those of eight bytes that are the quote, a backslash, a line feed or above 127.
fn stops(eight: u64, quote: Quote) -> u64
    ensures { result ≡ lanes 8 (stop_mark (quote_code quote)) eight }
{
    swar::mark_byte(eight, quote.byte())
        | swar::mark_byte(eight, b'\n')
        | swar::mark_byte(eight, b'\\')
        | swar::mark_high(eight)
}

// How many of the eight bytes at a place come before the first of those.
fn plain_at(src: &[u8], at: usize, quote: Quote) -> usize
    requires { at + 8 ≤ length src.now }
    ensures { result ≡ min 8 (plain_len (quote_code quote) (drop at src.now)) }
{
    swar::before_mark(stops(swar::eight(src, at), quote))
}

// The place of the first of those from a place on, or the end; by eight bytes where they are there.
// `chunks_exact(8)` is no plainer: the answer is the place, so a count would stand beside the
// chunks, and the last bytes are no whole chunk.
pub(crate) fn plain_end(src: &[u8], at: usize, quote: Quote) -> usize
    ensures { result ≡ at + plain_len (quote_code quote) (drop at src.now) }
{
    let mut p = at;
    while swar::has_eight(src, p) {
        let n = plain_at(src, p, quote);
        if n < 8 {
            return p + n;
        }
        p += 8;
    }
    p + plain_run(&src[p.min(src.len())..], quote)
}

// The place of the first byte from a place on that is no plain character of a string: a quote, a
// backslash, a line feed, one above 127, or the end.
pub fn plain_string(src: &[u8], at: usize) -> usize
    ensures { result ≡ at + plain_len double_quote (drop at src.now) }
{
    plain_end(src, at, Quote::Double)
}

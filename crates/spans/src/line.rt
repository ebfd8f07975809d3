// Whether a general comment ends its line.
ghost use Rattle.std.specs.Prelude.{◌≡◌, false, not, eqb, drop};
ghost use Rattle.std.specs.List.{list_all, take_while};
ghost use Rattle.blanks.specs.Blank.{is_space};
ghost use Rattle.utf8.specs.Chars.{chars};
ghost use Rattle.spans.specs.Line.{blank_to_end, ends_line};
ghost use Rattle.spans.specs.Steps.{stop_from};

// Where and how the search for a comment's end stopped: closed before a place, or at the end of its
// line or of the source.
#[derive(Clone, Copy)]
pub(crate) enum Stop {
    Closed(usize),
    End { lf: bool },
}

// Has a text only spaces, tabs and CRs up to an LF or the end?
fn is_blank_line(s: &[u8]) -> bool
    ensures { result ≡ list_all is_space (take_while (λ b. not (eqb b 10)) s.now) }
{
    s.iter()
        .take_while(|b| **b != b'\n')
        .all(|b| blanks::is_space(*b))
}

// The same from a place on.
fn blank_to_end(src: &[u8], at: usize) -> bool
    ensures { result ≡ blank_to_end (chars (drop at src.now)) }
{
    is_blank_line(&src[at.min(src.len())..])
}

// Searches the end of a general comment, from after its opening, within its line.
// A loop with a break value, and an enum of its own for it: the scope fixes this form
// (docs/PROVED.md, "Forms that the scope asks for").
fn comment_end(src: &[u8], at: usize) -> Stop
    ensures { result ≡ stop_from at false (chars (drop at src.now)) }
{
    let mut p = at;
    let mut star = false;
    let stop = loop {
        if p >= src.len() {
            break Stop::End { lf: false };
        }
        let b = src[p];
        if b == b'\n' {
            break Stop::End { lf: true };
        }
        p = reader::place_after(src, p);
        if star & (b == b'/') {
            break Stop::Closed(p);
        }
        star = b == b'*';
    };
    stop
}

// Does a general comment end its line? `at` is the place after its opening.
pub fn ends_line(src: &[u8], at: usize) -> bool
    ensures { result ≡ ends_line false (chars (drop at src.now)) }
{
    let stop = comment_end(src, at);
    match stop {
        Stop::Closed(next) => blank_to_end(src, next),
        Stop::End { lf: _ } => true,
    }
}

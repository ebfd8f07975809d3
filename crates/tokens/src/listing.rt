// The listing of a text: its tokens, its errors and the count of its lines, or the refusal at which
// it stops.
use crate::output::Output;
use errors::Error;
use kinds::Kind;
use opening::NotOpened;
use position::Position;
use refusal::Refusal;
use scanner::{State, Token};

// The longest text in bytes.
pub(crate) const MOST_BYTES: usize = 65_536;

// The most scans of so many characters. Each reads one or more, or inserts a semicolon after one
// that did, or is that of EOF.
const MOST_SCANS: usize = 131_073;

// A token with what a listing shows of it.
#[derive(Clone, Copy)]
pub(crate) struct Shown<'a> {
    pub(crate) place: Position,
    pub(crate) token: Token,
    pub(crate) text: &'a [u8],
    pub(crate) value: &'a [u8],
}

// How a listing is written.
pub(crate) trait Form {
    fn token(&self, out: &mut Output, shown: Shown<'_>);

    fn error(&self, out: &mut Output, src: &[u8], error: Error);

    // The last line of a whole listing.
    fn end(&self, out: &mut Output, last: State);

    // The last line of a listing that a refusal ends, of the opening or of a later call.
    fn refused(&self, out: &mut Output, why: NotOpened);
}

// What scans are lent: a table of line starts, a list of errors and a text area. (The program
// `bad_input` has such a struct, too: what programs share are the libraries alone.)
#[derive(Drop)]
pub(crate) struct Lent<'a> {
    pub(crate) table: &'a mut [usize],
    pub(crate) list: &'a mut [usize],
    pub(crate) area: &'a mut [u8],
}

// A listing that is being written: in which form, of which text, and to where.
#[derive(Drop)]
pub(crate) struct Listing<'a, F: Form> {
    pub(crate) form: &'a F,
    pub(crate) src: &'a [u8],
    pub(crate) out: &'a mut Output,
}

impl<F: Form> Listing<'_, F> {
    // Lists a token that a scan gave, with the state after it.
    fn token(
        &mut self,
        area: &[u8],
        table: &[usize],
        state: State,
        token: Token,
    ) -> Result<(), Refusal> {
        let shown = Shown {
            place: scanner::position(state, table, token.position)?,
            token,
            text: scanner::text(self.src, area, token)?,
            value: scanner::value(self.src, area, token)?,
        };
        self.form.token(self.out, shown);
        Ok(())
    }

    // Lists the errors, in order of arrival: each is asked for by its index.
    fn errors(&mut self, last: State, list: &[usize]) -> Result<(), Refusal> {
        for k in 0..last.errors {
            if let Some(error) = scanner::error(last, list, k)? {
                self.form.error(self.out, self.src, error);
            }
        }
        Ok(())
    }

    // Opens the text at base 0, in a size of its bytes, and lists its tokens to the first EOF and
    // its errors; gives the last state.
    fn text(&mut self, lent: Lent<'_>) -> Result<State, NotOpened> {
        let Lent { table, list, area } = lent;
        if self.src.len() > MOST_BYTES {
            return Err(Refusal::TooLong.into());
        }
        let opened = scanner::open(self.src, 0, self.src.len(), table)?;
        let mut state = opened.state;
        for _ in 0..MOST_SCANS {
            let scanned = scanner::scan(self.src, state, table, list, area)?;
            state = scanned.state;
            self.token(area, table, state, scanned.token)?;
            if scanned.token.kind == Kind::Eof as u8 {
                break;
            }
        }
        self.errors(state, list)?;
        Ok(state)
    }

    // Writes the whole listing.
    pub(crate) fn write(&mut self, lent: Lent<'_>) {
        match self.text(lent) {
            Ok(last) => self.form.end(self.out, last),
            Err(why) => self.form.refused(self.out, why),
        }
        self.out.flush();
    }
}

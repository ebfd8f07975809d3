// Opening a text.
#![tactic(auto)]

ghost use Rattle.std.specs.Prelude.{◌≡◌};
ghost use Rattle.opening.specs.declared.NotOpened.TheVariants.{NotUtf8, Refused};
ghost use Rattle.opening.specs.Opening.{opening_of, begun_of, open_of};
ghost use Rattle.opening.specs.Steps.{or_refused};

use refusal::Refusal;
use state::State;

// A text that was opened: the first state, and the number of characters.
#[derive(Clone, Copy)]
pub struct Opened {
    pub state: State,
    pub chars: usize,
}

// Why a text was not opened. Bytes that are not UTF-8 come with the place of one that belongs to no
// well-formed character.
#[derive(Clone, Copy, PartialEq, Eq)]
pub enum NotOpened {
    NotUtf8 { place: usize },
    Refused(Refusal),
}

impl From<validation::NotUtf8> for NotOpened {
    ghost from_gives = { λ bad e. e ≡ NotUtf8 bad.place };

    fn from(bad: validation::NotUtf8) -> NotOpened {
        NotOpened::NotUtf8 { place: bad.place }
    }
}

impl From<Refusal> for NotOpened {
    ghost from_gives = { λ refusal e. e ≡ Refused refusal };

    fn from(refusal: Refusal) -> NotOpened {
        NotOpened::Refused(refusal)
    }
}

// Opens a text of so many characters, and records the start of its first line.
fn begin(chars: usize, base: usize, size: usize, table: &mut [usize]) -> Result<Opened, Refusal>
    ensures { opening_of table.new (or_refused result) ≡ begun_of chars base size table.old }
{
    let state = State::new(base, size);
    if chars > size || !state.file().in_range() {
        return Err(Refusal::BadSize);
    }
    if table.is_empty() {
        return Err(Refusal::TableFull);
    }
    table[0] = 0;
    Ok(Opened { state, chars })
}

// Opens a source at a base, in a size, and records the start of its first line.
pub fn open(src: &[u8], base: usize, size: usize, table: &mut [usize]) -> Result<Opened, NotOpened>
    ensures { opening_of table.new result ≡ open_of src.now base size table.old }
{
    if src.len() > State::MAX_SOURCE {
        return Err(NotOpened::Refused(Refusal::TooLong));
    }
    let chars = validation::check(src)?;
    Ok(begin(chars, base, size, table)?)
}

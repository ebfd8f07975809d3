// A text or a value as a part of the source or of the text area.
ghost use Rattle.std.specs.Prelude.{◌≡◌};
ghost use Rattle.parts.specs.Shown.{shown_as, shown_of};

use refusal::Refusal;

// The part of the text area, or of the source, that a text or a value is in. (Which of the two is a
// flag, as it is among the numbers for C.)
#[derive(Clone, Copy)]
pub struct Part {
    pub area: bool,
    pub start: usize,
    pub end: usize,
}

// The text or the value that a token shows, by its part.
pub fn shown<'a>(src: &'a [u8], area: &'a [u8], part: Part) -> Result<&'a [u8], Refusal>
    ensures { shown_as result ≡ shown_of src.now area.now part }
{
    let buffer = if part.area { area } else { src };
    buffer.get(part.start..part.end).ok_or(Refusal::DoesNotFit)
}

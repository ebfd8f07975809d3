// The number behind a token that is an INT or a FLOAT.
#![tactic(auto)]

ghost use Rattle.std.specs.Prelude.{◌≡◌, length};
ghost use Rattle.utf8.specs.Chars.{chars};
ghost use Rattle.kinds.specs.Number.{kind_number};
ghost use Rattle.refusal.specs.Outcome.{outcome_of};
ghost use Rattle.numbers.specs.Number.{number};
ghost use Rattle.quantity_query.specs.Given.{is_real, is_all, most_bytes, is_given};
ghost use Rattle.quantity_query.specs.Number.{number_behind, number_in};

use kinds::Kind;
use numbers::Spelling;
use parts::Part;
use position::File;
use quantity::Quantity;
use refusal::Refusal;

#[tactic(auto, using(kinds::proofs::Tags::same_kinds))]
fn is_real(kind: Kind) -> bool
    ensures { result ≡ is_real (kind_number kind) }
{
    kind == Kind::Int || kind == Kind::Float
}

// Is the number at the start of a text the whole text, of that kind, and written as it was read?
#[tactic(auto, using(kinds::proofs::Tags::same_kinds))]
fn is_all(text: &[u8], kind: Kind) -> bool
    ensures { result ≡ is_all (kind_number kind) (length text.now) (number (chars text.now)) }
{
    let n = numbers::scan_number(text, 0);
    n.kind == kind && n.end == text.len() && matches!(n.spelling, Spelling::AsRead)
}

// How many bytes a text can have.
fn most_bytes(text: &[u8]) -> usize
    ensures { result ≡ most_bytes text.now }
{
    if text.starts_with(b"0o") {
        return File::MAX_POSITION + 1;
    }
    File::MAX_POSITION
}

// Does a scan give a token of that kind such a text?
#[tactic(auto, unfolding(crate::specs::Given::is_given))]
fn is_given(text: &[u8], kind: Kind) -> bool
    ensures { result ≡ is_given (kind_number kind) text.now }
{
    is_real(kind)
        && numbers::starts_number(utf8::byte(text, 0), utf8::byte(text, 1))
        && is_all(text, kind)
        && text.len() <= most_bytes(text)
}

#[tactic(auto, unfolding(crate::specs::Number::number_behind))]
fn number_behind(text: &[u8], kind: u8) -> Result<Quantity, Refusal>
    ensures { outcome_of result ≡ number_behind kind text.now }
{
    match Kind::try_from(kind) {
        Ok(kind) if is_given(text, kind) => quantity::quantity_of(text),
        _ => Err(Refusal::NoNumber),
    }
}

// The number behind a token, by its kind, which may be any number, and the part that its text is.
// Give the source that was scanned, and the area as the token's own scan left it.
#[tactic(auto, unfolding(crate::specs::Number::number_in))]
pub fn number<'a>(src: &'a [u8], area: &'a [u8], kind: u8, text: Part) -> Result<Quantity, Refusal>
    ensures { outcome_of result ≡ number_in src.now area.now kind text }
{
    let text = parts::shown(src, area, text)?;
    number_behind(text, kind)
}

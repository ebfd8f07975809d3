// The number that the text of a literal denotes: m and k with the value m / 10^k.
#![tactic(auto)]

mod figures;
mod parts;
mod whole;

ghost use Rattle.std.specs.Prelude.{◌≡◌, ◌≢◌, ℕ, ◌*◌, ◌^◌, ◌%◌, ◌<◌};
ghost use Rattle.digits.specs.Base.{base_number};
ghost use Rattle.refusal.specs.Outcome.{outcome_of};
ghost use Rattle.quantity.specs.Pair.{Rational, pair_of};
ghost use Rattle.quantity.specs.Text.{digits_of, is_negative, scaled_by, decimal_by, decimal_in, base_by, base_of, denoted};
ghost use Rattle.quantity.specs.Whole.{capped};
ghost use Rattle.quantity.specs.Figures.{Near, Denotes, found};

pub use digits::Base;
use figures::{Figures, read_figures};
use parts::{count_digits, find};
use refusal::Refusal;
pub use whole::whole_number;
use whole::{added, scaled};

// The number m / 10^k.
#[derive(Clone, Copy)]
pub struct Quantity {
    pub m: u64,
    pub k: u8,
}

// A whole number, if 64 bits hold it.
fn as_whole(x: Option<u64>) -> Option<Quantity>
    ensures { (v : Rational) (n : ℕ) → x ≡ capped n → Denotes v n 0 0 → found result ≡ pair_of v }
{
    Some(Quantity { m: x?, k: 0 })
}

// m * 10^up / 10^down, where m does not end in a zero.
fn settled(m: u64, up: Option<u64>, down: Option<u64>) -> Option<Quantity>
    requires { m % 10 ≢ 0 }
    ensures { (v : Rational) (rise fall : ℕ) → up ≡ capped rise → down ≡ capped fall → Near rise fall → Denotes v m rise fall → found result ≡ pair_of v }
{
    let rise = up?;
    let fall = down?;
    if fall <= rise {
        return as_whole(scaled(m, Base::Decimal, rise - fall));
    }
    let k = fall - rise;
    if k <= 18 {
        return Some(Quantity { m, k: k as u8 });
    }
    None
}

// Figures that are m with zeros after it, some of them after a point, and what starts with the e.
fn with_exponent(exponent: &[u8], m: u64, zeros: u64, places: u64) -> Option<Quantity>
    requires { (m % 10 ≢ 0) × (places < 2 ^ 63) × (zeros < 2 ^ 63) }
    ensures { found result ≡ pair_of (scaled_by (m * 10 ^ zeros) places (is_negative exponent.now) (digits_of 10 exponent.now)) }
{
    let x = whole_number(exponent, Base::Decimal);
    if utf8::byte(exponent, 1) == b'-' {
        return settled(m, Some(zeros), added(places, x));
    }
    settled(m, added(zeros, x), Some(places))
}

// A decimal number, by its figures, with their point, and its exponent.
fn decimal_by(figures: &[u8], exponent: &[u8]) -> Option<Quantity>
    ensures { found result ≡ pair_of (decimal_by figures.now exponent.now) }
{
    let Figures { m, zeros } = read_figures(figures, Base::Decimal)?;
    if m == 0 {
        return Some(Quantity { m: 0, k: 0 });
    }
    let point = find(figures, b'.');
    let places = count_digits(&figures[point..]);
    with_exponent(exponent, m, zeros, places)
}

fn decimal(text: &[u8]) -> Option<Quantity>
    ensures { found result ≡ pair_of (decimal_in text.now) }
{
    let e = find(text, b'e');
    decimal_by(&text[..e], &text[e..])
}

// The base of a text, by its first two bytes.
fn base_by(first: u8, second: u8) -> Base
    ensures { base_number result ≡ base_by first second }
{
    if first != b'0' {
        return Base::Decimal;
    }
    match second {
        b'x' => Base::Hexadecimal,
        b'o' => Base::Octal,
        b'b' => Base::Binary,
        _ => Base::Decimal,
    }
}

// The base of a text: that of its prefix, or ten.
fn base_of(text: &[u8]) -> Base
    ensures { base_number result ≡ base_of text.now }
{
    base_by(utf8::byte(text, 0), utf8::byte(text, 1))
}

fn denoted(text: &[u8]) -> Option<Quantity>
    ensures { found result ≡ pair_of (denoted text.now) }
{
    match base_of(text) {
        Base::Decimal => decimal(text),
        base => as_whole(whole_number(text, base)),
    }
}

// The number that a text denotes, with the least k; refused where there is no such m and k.
pub fn quantity_of(text: &[u8]) -> Result<Quantity, Refusal>
    ensures { outcome_of result ≡ pair_of (denoted text.now) }
{
    denoted(text).ok_or(Refusal::NoPair)
}

// Numbers: decimal, binary, octal and hexadecimal integers, decimal floats, and imaginary ones.
// (A source and a place stay two parameters, as docs/PROVED.md promises: a struct of both would be
// named in each contract and each call, and is no plainer.)
#![tactic(auto)]

mod run;

ghost use Rattle.std.specs.Prelude.{◌≡◌, drop, ◌&&◌, leb};
ghost use Rattle.utf8.specs.Chars.{chars, peek};
ghost use Rattle.digits.specs.Digit.{is_decimal};
ghost use Rattle.digits.specs.Base.{base_number};
ghost use Rattle.kinds.specs.Kinds.{ILLEGAL};
ghost use Rattle.kinds.specs.Number.{kind_number};
ghost use Rattle.errors.specs.Faults.{fault_number};
ghost use Rattle.numbers.specs.Number.{number_at, number_said, exponent_digits, exponent, finish, fraction, decimal_rest, decimal, prefixed, makes_decimal, is_bare_octal, bare_zero, leading_zero, without_i, starts_number, number};
ghost use Rattle.numbers.specs.Run.{strict_run};
ghost use Rattle.numbers.specs.Steps.{ZeroAt, prefix_base, prefix_error};

use digits::Base;
use errors::Fault;
use kinds::Kind;
use run::Misplaced;

// How the text of a number differs from what was read.
#[derive(Clone, Copy, PartialEq, Eq)]
pub enum Spelling {
    AsRead,
    // the prefix's letter is written lower case
    LowerPrefix,
    // an o is written after the 0
    OctalPrefix,
    // the exponent's e is written lower case
    LowerExponent,
}

// A number: its kind, the place after it, what is wrong with it, and how its text is written. (No
// `Result` of a kind: a lexeme has both fields, as the definition has, and would take it apart.)
#[derive(Clone, Copy)]
pub struct Number {
    pub kind: Kind,
    pub end: usize,
    pub error: Option<Fault>,
    pub spelling: Spelling,
}

// The base of a number that has a prefix, or the 0 of a bare octal number.
#[derive(Clone, Copy)]
enum Prefix {
    Binary,
    Octal,
    Hexadecimal,
}

impl Prefix {
    fn base(self) -> Base
        ensures { base_number result ≡ prefix_base self }
    {
        match self {
            Prefix::Binary => Base::Binary,
            Prefix::Octal => Base::Octal,
            Prefix::Hexadecimal => Base::Hexadecimal,
        }
    }

    // The fault of such a number that has no digit, or a digit above its base.
    fn fault(self) -> Fault
        ensures { fault_number result ≡ prefix_error self }
    {
        match self {
            Prefix::Binary => Fault::BadBinary,
            Prefix::Octal => Fault::BadOctal,
            Prefix::Hexadecimal => Fault::BadHexadecimal,
        }
    }
}

fn good(kind: Kind, end: usize, spelling: Spelling) -> Number
    ensures { number_said result ≡ record { kind = kind_number kind; end = end; error = 0; spelling = spelling } }
{
    Number {
        kind,
        end,
        error: None,
        spelling,
    }
}

fn illegal(fault: Fault, end: usize, spelling: Spelling) -> Number
    ensures { number_said result ≡ record { kind = ILLEGAL; end = end; error = fault_number fault; spelling = spelling } }
{
    Number {
        kind: Kind::Illegal,
        end,
        error: Some(fault),
        spelling,
    }
}

// The digits of an exponent.
fn exponent_digits(src: &[u8], at: usize, spelling: Spelling) -> Number
    ensures { number_said result ≡ number_at at (exponent_digits spelling (strict_run 10 (chars (drop at src.now)))) }
{
    match run::scan_strict_digits(src, at, Base::Decimal) {
        Err(Misplaced { end }) => illegal(Fault::MisplacedUnderscore, end, spelling),
        Ok(end) if end == at => illegal(Fault::BadExponent, end, spelling),
        Ok(end) => good(Kind::Float, end, spelling),
    }
}

// After the e: a sign, if there is one, and digits.
#[tactic(auto, using(crate::proofs::Numerals::exponent_signed, crate::proofs::Numerals::exponent_plain))]
fn scan_exponent(src: &[u8], at: usize, spelling: Spelling) -> Number
    ensures { number_said result ≡ number_at at (exponent spelling (chars (drop at src.now))) }
{
    let b = utf8::byte(src, at);
    if (b == b'+') | (b == b'-') {
        return exponent_digits(src, at + 1, spelling);
    }
    exponent_digits(src, at, spelling)
}

// After the digits: an exponent, or the number ends here.
#[tactic(auto, using(crate::proofs::Numerals::finish_lower, crate::proofs::Numerals::finish_upper, crate::proofs::Numerals::finish_end))]
fn finish_number(src: &[u8], at: usize, kind: Kind) -> Number
    ensures { number_said result ≡ number_at at (finish (kind_number kind) (chars (drop at src.now))) }
{
    let b = utf8::byte(src, at);
    if b == b'e' {
        return scan_exponent(src, at + 1, Spelling::AsRead);
    }
    if b == b'E' {
        return scan_exponent(src, at + 1, Spelling::LowerExponent);
    }
    good(kind, at, Spelling::AsRead)
}

// After the point.
#[tactic(auto, using(crate::proofs::Runs::run_err, crate::proofs::Runs::run_ok, crate::proofs::Numerals::fraction_bad, crate::proofs::Numerals::fraction_good))]
fn scan_fraction(src: &[u8], at: usize) -> Number
    ensures { number_said result ≡ number_at at (fraction (chars (drop at src.now))) }
{
    match run::scan_strict_digits(src, at, Base::Decimal) {
        Err(Misplaced { end }) => illegal(Fault::MisplacedUnderscore, end, Spelling::AsRead),
        Ok(end) => finish_number(src, end, Kind::Float),
    }
}

// After the digits of a decimal number.
#[tactic(auto, using(crate::proofs::Numerals::rest_point, crate::proofs::Numerals::rest_plain))]
fn decimal_rest(src: &[u8], at: usize) -> Number
    ensures { number_said result ≡ number_at at (decimal_rest (chars (drop at src.now))) }
{
    if utf8::byte(src, at) == b'.' {
        return scan_fraction(src, at + 1);
    }
    finish_number(src, at, Kind::Int)
}

// A decimal number. (`scan_fraction` reads digits so, too. What comes after them is another function:
// one for both would take it as a closure, and is no plainer.)
#[tactic(auto, using(crate::proofs::Runs::run_err, crate::proofs::Runs::run_ok, crate::proofs::Numerals::decimal_bad, crate::proofs::Numerals::decimal_good))]
fn scan_decimal(src: &[u8], at: usize) -> Number
    ensures { number_said result ≡ number_at at (decimal (chars (drop at src.now))) }
{
    match run::scan_digits(src, at, Base::Decimal) {
        Err(Misplaced { end }) => illegal(Fault::MisplacedUnderscore, end, Spelling::AsRead),
        Ok(end) => decimal_rest(src, end),
    }
}

// Does a decimal digit follow a binary or octal number?
#[tactic(auto, using(crate::proofs::Numerals::digit_next))]
fn goes_on(src: &[u8], at: usize, prefix: Prefix) -> bool
    ensures { result ≡ leb (prefix_base prefix) 8 && is_decimal (peek (chars (drop at src.now))) }
{
    match prefix {
        Prefix::Binary | Prefix::Octal => digits::is_decimal(utf8::byte(src, at)),
        Prefix::Hexadecimal => false,
    }
}

// After a prefix: digits of the base. The number has the fault of its prefix where there is no
// digit, or a decimal digit follows.
fn scan_prefixed(src: &[u8], at: usize, prefix: Prefix, spelling: Spelling) -> Number
    ensures { number_said result ≡ number_at at (prefixed (prefix_base prefix) (prefix_error prefix) spelling (chars (drop at src.now))) }
{
    match run::scan_digits(src, at, prefix.base()) {
        Err(Misplaced { end }) => illegal(Fault::MisplacedUnderscore, end, spelling),
        Ok(end) => {
            if (end == at) | goes_on(src, end, prefix) {
                return illegal(prefix.fault(), end, spelling);
            }
            good(Kind::Int, end, spelling)
        }
    }
}

// Is a number with a leading 0 decimal before this byte?
fn makes_decimal(b: u8) -> bool
    ensures { result ≡ makes_decimal b }
{
    matches!(b, b'.' | b'e' | b'E' | b'i')
}

// Is the number octal that a text starts with, a 0 with no letter of a prefix? It is if a digit or
// an underscore follows the 0, unless what follows the run of these makes the number decimal.
fn is_bare_octal(text: &[u8]) -> bool
    requires { ZeroAt text.now 0 }
    ensures { result ≡ is_bare_octal (chars text.now) }
{
    if !run::is_digit_or_underscore(utf8::byte(text, 1)) {
        return false;
    }
    !makes_decimal(utf8::byte(text, run::run_len(text)))
}

// A number that starts with 0, by the byte after it.
fn scan_zero(src: &[u8], at: usize) -> Number
    requires { ZeroAt src.now at }
    ensures { number_said result ≡ number_at at (leading_zero (chars (drop at src.now))) }
{
    let b = utf8::byte(src, at + 1);
    let p = at + 2;
    match b {
        b'x' => scan_prefixed(src, p, Prefix::Hexadecimal, Spelling::AsRead),
        b'X' => scan_prefixed(src, p, Prefix::Hexadecimal, Spelling::LowerPrefix),
        b'o' => scan_prefixed(src, p, Prefix::Octal, Spelling::AsRead),
        b'O' => scan_prefixed(src, p, Prefix::Octal, Spelling::LowerPrefix),
        b'b' => scan_prefixed(src, p, Prefix::Binary, Spelling::AsRead),
        b'B' => scan_prefixed(src, p, Prefix::Binary, Spelling::LowerPrefix),
        _ if is_bare_octal(&src[at..]) => scan_prefixed(
            src,
            at + 1,
            Prefix::Octal,
            Spelling::OctalPrefix,
        ),
        _ => scan_decimal(src, at),
    }
}

#[tactic(auto, using(crate::proofs::Numerals::without_point, crate::proofs::Numerals::without_zero, crate::proofs::Numerals::without_other))]
fn scan_number_without_i(src: &[u8], at: usize) -> Number
    ensures { number_said result ≡ number_at at (without_i (chars (drop at src.now))) }
{
    let b = utf8::byte(src, at);
    if b == b'.' {
        return scan_fraction(src, at + 1);
    }
    if b == b'0' {
        return scan_zero(src, at);
    }
    scan_decimal(src, at)
}

// Does a number start with these two bytes? A point before a digit starts one.
pub fn starts_number(first: u8, second: u8) -> bool
    ensures { result ≡ starts_number first second }
{
    digits::is_decimal(first) || first == b'.' && digits::is_decimal(second)
}

// The number at a place that holds a digit, or a point before one.
pub fn scan_number(src: &[u8], at: usize) -> Number
    ensures { number_said result ≡ number_at at (number (chars (drop at src.now))) }
{
    let n = scan_number_without_i(src, at);
    if n.kind == Kind::Illegal {
        return n;
    }
    if utf8::byte(src, n.end) == b'i' {
        return good(Kind::Imag, n.end + 1, n.spelling);
    }
    n
}

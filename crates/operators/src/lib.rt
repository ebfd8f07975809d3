// Operators and delimiters: the longest one of the table of spellings.
// (A source and a place stay two parameters, as docs/PROVED.md promises: a struct of both would be
// named in each contract and each call, and is no plainer.)
#![tactic(auto)]

ghost use Rattle.std.specs.Prelude.{◌≡◌, drop};
ghost use Rattle.utf8.specs.Chars.{chars};
ghost use Rattle.kinds.specs.Number.{kind_number};
ghost use Rattle.operators.specs.Longest.{op, operator_said, operator_of};
ghost use Rattle.operators.specs.Steps.{switch2, switch3, switch4, less_by, greater_by, and_by, period_by};

use kinds::Kind;

// An operator: its kind, and of how many characters it is.
#[derive(Clone, Copy)]
pub struct Operator {
    pub kind: Kind,
    pub len: usize,
}

fn op(kind: Kind, len: usize) -> Operator
    ensures { operator_said result ≡ op (kind_number kind) len }
{
    Operator { kind, len }
}

// The second byte b of an operator: = or nothing. (The three functions of this kind test different
// bytes; one function with options in place of them would be no plainer.)
fn scan_switch2(b: u8, one: Kind, assign: Kind) -> Operator
    ensures { operator_said result ≡ switch2 b (kind_number one) (kind_number assign) }
{
    if b == b'=' {
        return op(assign, 2);
    }
    op(one, 1)
}

// The same, where another byte ch may be there.
fn scan_switch3(b: u8, one: Kind, assign: Kind, ch: u8, two: Kind) -> Operator
    ensures { operator_said result ≡ switch3 b (kind_number one) (kind_number assign) ch (kind_number two) }
{
    if b == b'=' {
        return op(assign, 2);
    }
    if b == ch {
        return op(two, 2);
    }
    op(one, 1)
}

// Where the second byte is ch, a third byte c may follow: = or nothing. Else the operator is
// another.
fn scan_switch4(b: u8, c: u8, ch: u8, two: Kind, assign: Kind, other: Operator) -> Operator
    ensures { operator_said result ≡ switch4 b c ch (kind_number two) (kind_number assign) (operator_said other) }
{
    if b != ch {
        return other;
    }
    if c == b'=' {
        return op(assign, 3);
    }
    op(two, 2)
}

fn scan_less(b: u8, c: u8) -> Operator
    ensures { operator_said result ≡ less_by b c }
{
    let other = scan_switch3(b, Kind::Lss, Kind::Leq, b'-', Kind::Arrow);
    scan_switch4(b, c, b'<', Kind::Shl, Kind::ShlAssign, other)
}

fn scan_greater(b: u8, c: u8) -> Operator
    ensures { operator_said result ≡ greater_by b c }
{
    let other = scan_switch2(b, Kind::Gtr, Kind::Geq);
    scan_switch4(b, c, b'>', Kind::Shr, Kind::ShrAssign, other)
}

fn scan_and(b: u8, c: u8) -> Operator
    ensures { operator_said result ≡ and_by b c }
{
    let other = scan_switch3(b, Kind::And, Kind::AndAssign, b'&', Kind::Land);
    scan_switch4(b, c, b'^', Kind::AndNot, Kind::AndNotAssign, other)
}

// After a point: two more of them or none.
fn scan_period(b: u8, c: u8) -> Operator
    ensures { operator_said result ≡ period_by b c }
{
    if b != b'.' {
        return op(Kind::Period, 1);
    }
    if c != b'.' {
        return op(Kind::Period, 1);
    }
    op(Kind::Ellipsis, 3)
}

// The operator at a place; where there is none, ILLEGAL of no characters. (No `Option`:
// docs/PROVED.md promises this answer, and it is what the lexer goes on with.)
pub fn scan_operator(src: &[u8], at: usize) -> Operator
    ensures { operator_said result ≡ operator_of (chars (drop at src.now)) }
{
    if src.len() <= at {
        return op(Kind::Illegal, 0);
    }
    let a = src[at];
    let next = at + 1;
    let b = utf8::byte(src, next);
    match a {
        b'+' => scan_switch3(b, Kind::Add, Kind::AddAssign, b'+', Kind::Inc),
        b'-' => scan_switch3(b, Kind::Sub, Kind::SubAssign, b'-', Kind::Dec),
        b'|' => scan_switch3(b, Kind::Or, Kind::OrAssign, b'|', Kind::Lor),
        b'*' => scan_switch2(b, Kind::Mul, Kind::MulAssign),
        b'/' => scan_switch2(b, Kind::Quo, Kind::QuoAssign),
        b'%' => scan_switch2(b, Kind::Rem, Kind::RemAssign),
        b'^' => scan_switch2(b, Kind::Xor, Kind::XorAssign),
        b'!' => scan_switch2(b, Kind::Not, Kind::Neq),
        b'=' => scan_switch2(b, Kind::Assign, Kind::Eql),
        b':' => scan_switch2(b, Kind::Colon, Kind::Define),
        b'<' => scan_less(b, utf8::byte(src, next + 1)),
        b'>' => scan_greater(b, utf8::byte(src, next + 1)),
        b'&' => scan_and(b, utf8::byte(src, next + 1)),
        b'.' => scan_period(b, utf8::byte(src, next + 1)),
        b'(' => op(Kind::Lparen, 1),
        b'[' => op(Kind::Lbrack, 1),
        b'{' => op(Kind::Lbrace, 1),
        b',' => op(Kind::Comma, 1),
        b')' => op(Kind::Rparen, 1),
        b']' => op(Kind::Rbrack, 1),
        b'}' => op(Kind::Rbrace, 1),
        b';' => op(Kind::Semicolon, 1),
        _ => op(Kind::Illegal, 0),
    }
}

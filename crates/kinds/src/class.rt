// The classes of the kinds, and the precedence of the binary operators.
ghost use Rattle.std.specs.Prelude.{◌≡◌};
ghost use Rattle.kinds.specs.Table.{is_literal, is_operator, is_keyword, sets_mark};
ghost use Rattle.kinds.specs.Precedence.{precedence_of};

use crate::Kind;

// The functions here take a number, as a token has one: docs/PROVED.md promises their answer for
// numbers of no kind too.
pub fn is_literal(kind: u8) -> bool
    ensures { result ≡ is_literal kind }
{
    (Kind::Ident as u8..=Kind::String as u8).contains(&kind)
}

pub fn is_operator(kind: u8) -> bool
    ensures { result ≡ is_operator kind }
{
    (Kind::Add as u8..=Kind::Colon as u8).contains(&kind)
}

pub fn is_keyword(kind: u8) -> bool
    ensures { result ≡ is_keyword kind }
{
    (Kind::Break as u8..=Kind::Var as u8).contains(&kind)
}

// The precedence of a binary operator, 5 the highest; 0 of every other kind. (No `Option`:
// docs/PROVED.md promises this number, and Go's own scanner calls 0 the lowest precedence.)
pub fn precedence(kind: u8) -> usize
    ensures { result ≡ precedence_of kind }
{
    match Kind::try_from(kind) {
        Ok(Kind::Lor) => 1,
        Ok(Kind::Land) => 2,
        Ok(Kind::Eql | Kind::Neq | Kind::Lss | Kind::Leq | Kind::Gtr | Kind::Geq) => 3,
        Ok(Kind::Add | Kind::Sub | Kind::Or | Kind::Xor) => 4,
        Ok(Kind::Mul | Kind::Quo | Kind::Rem | Kind::Shl | Kind::Shr | Kind::And | Kind::AndNot) =>
            5,
        _ => 0,
    }
}

// The kinds after which the mark is set, by a bit for each: those below 64, and those from there
// on.
const LOW_MARKS: u64 = 1 << Kind::Ident as u8
    | 1 << Kind::Inc as u8
    | 1 << Kind::Dec as u8
    | 1 << Kind::Rparen as u8
    | 1 << Kind::Rbrack as u8
    | 1 << Kind::Rbrace as u8
    | 1 << Kind::Break as u8
    | 1 << Kind::Continue as u8;

const HIGH_MARKS: u64 = 1 << (Kind::Fallthrough as u8 - 64) | 1 << (Kind::Return as u8 - 64);

// Is the mark for an inserted semicolon set after a word or an operator of this kind? After a
// number, a string or a character it always is. A bit tells it, so that the processor has no branch
// to predict.
pub fn sets_mark(kind: u8) -> bool
    ensures { result ≡ sets_mark kind }
{
    if 127 < kind {
        return false;
    }
    let marks: u64 = if kind < 64 { LOW_MARKS } else { HIGH_MARKS };
    (marks >> (kind % 64)) & 1 == 1
}

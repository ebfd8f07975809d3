// What the first byte of a token tells.
use kinds::Kind;

#[derive(Clone, Copy)]
pub(crate) enum First {
    Letter,
    // a delimiter of this kind, of which it is the whole
    Delimiter(Kind),
    // after it there may be a number or another operator
    Point,
    LineFeed,
    // an operator that does not start with a slash
    Operator,
    Digit,
    // the double quote
    Quote,
    Other,
}

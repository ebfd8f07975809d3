// Escapes: what follows a backslash in a quoted literal.
// (A source and a place stay two parameters, as docs/PROVED.md promises: a struct of both would be
// named in each contract and each call, and is no plainer.)
#![tactic(auto)]

mod escape;
mod escape_digits;

use errors::Fault;
pub use escape::escape_at;

// What an escape gives: a character by its code, or one byte.
#[derive(Clone, Copy)]
pub enum Given {
    Char(u32),
    Byte(u8),
}

// An escape: how many characters it has after the backslash, each of one byte where the quote is
// ASCII, and what it gives.
#[derive(Clone, Copy)]
pub struct Escaped {
    pub len: usize,
    pub given: Result<Given, Fault>,
}

// One token at a place: a rule for each first character.
#![tactic(auto)]

mod comments;
mod lex;
mod lexed;
mod number;
mod quoted;
mod word;

pub use lex::lex_token;
pub use lexed::{Lexed, Shown, Text, Value};

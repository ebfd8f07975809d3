// Tokens: their kinds, names and classes, and the precedence of operators.
#![tactic(auto)]

mod class;
mod kind;
mod names;

pub use class::{is_keyword, is_literal, is_operator, precedence, sets_mark};
pub use kind::{Kind, UnknownKind};
pub use names::name;

// Opening a source and questions about it, for programs in C: numbers and slices alone.
#![tactic(auto)]

mod layout;
mod open;
mod questions;
mod token;

pub use open::scanner_open;
pub use questions::{scanner_error, scanner_line_start, scanner_position};
pub use token::{scanner_text, scanner_value};

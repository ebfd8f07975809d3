// Bodies that may hold line feeds: those of raw strings and comments; and whether a comment ends
// its line. A source and a place in it stay two parameters: docs/PROVED.md promises these functions
// so, and a struct of both, named in each contract and each call, would be no plainer.
#![tactic(auto)]

mod body;
mod line;
mod plain;

pub use body::{Body, block_body, line_body, raw_body};
pub use line::ends_line;

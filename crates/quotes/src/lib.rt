// Quoted literals: the bodies of character literals and double-quoted strings. A source and a place
// in it stay two parameters: docs/PROVED.md promises these functions so, and a struct of both, named
// in each contract and each call, would be no plainer.
#![tactic(auto)]

mod body;
mod content;
mod plain;

pub use body::{char_body, string_body};
pub use content::Content;
use errors::Fault;
pub use plain::plain_string;

// The body of a quoted literal, from after its opening quote.
#[derive(Clone, Copy)]
pub struct Quoted {
    // the place where it ends
    pub end: usize,
    // nothing where the closing quote was read
    pub error: Option<Fault>,
    // what was read, the closing quote included
    pub content: Content,
}

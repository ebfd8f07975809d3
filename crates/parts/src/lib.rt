// A token, the parts of the source or of the text area that it shows, and the numbers that it is.
#![tactic(auto)]

mod layout;
mod part;
mod token;

pub use layout::{part_in, put_token};
pub use part::{Part, shown};
pub use token::{Token, text, value};

// The scanner: opening a text, one scan, and questions about it.
#![tactic(auto)]

mod answer;
mod quick;
mod read;
mod scanning;
mod write;

pub use answer::Scanned;
pub use opening::{NotOpened, Opened, open};
pub use parts::{Part, Token, put_token, shown, text, value};
pub use queries::{error, line_start, position};
pub use scanning::scan;
pub use state::{State, put_state, state_in};

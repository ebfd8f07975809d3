// The state of a scan, whether it goes together with what a call is lent, and the numbers that it
// is.
#![tactic(auto)]

mod layout;
mod state;

pub use layout::{bit_of, number_at, put_state, state_in};
pub use state::State;

// Many scans in one call.
#![tactic(auto)]

mod first;
mod layout;
mod literal;
mod many;
mod near;
mod next;
mod round;
mod run;
mod simple;
mod start;
mod step;
mod tables;
mod word;

pub use many::scan_many;
pub use run::Batch;

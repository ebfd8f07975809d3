// Writing texts and values to an area, from a place on. Bytes that would come after the area's end
// are not written. (The source and the area, each with a place, stay four parameters, as
// docs/PROVED.md promises: structs of them would be named in each contract and each call.)
#![tactic(auto)]

mod chars;
mod number;
mod put;
mod value;

pub use chars::{write_clean, write_encoded, write_line};
pub use number::write_number;
pub use value::{write_interpreted, write_raw};

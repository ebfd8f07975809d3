// Many scans in one call for programs in C: numbers and slices alone. A crate of its own, and so
// compiled apart from one scan: the compiler inlines the scan where it is called from one place
// alone.
#![tactic(auto)]

mod calls;

pub use calls::scanner_scan_many;

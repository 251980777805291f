// What a table holds, a line for each record, what is wrong with it, and what differs between two.
#![tactic(auto)]

mod between;
mod calendar;
mod fault;
mod lines;

pub use between::{Printed, print_difference};
pub use fault::tell_faults;
pub use lines::list_records;

// The bytes of a record.
const SIZE: usize = 128;

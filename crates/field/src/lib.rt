// Fields of a value: their bits, read and written a byte at a time; the numbers of their types in 64 bits; and what INCRBY makes of a sum.
#![tactic(auto)]

mod bits;
mod int;
mod overflow;

pub use bits::{read_bits, write_bits};
pub use int::{bits_of, fits, number_of};
pub use overflow::increase;

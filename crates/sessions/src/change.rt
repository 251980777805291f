// What became of the table of one record.
use std::io;
use terminal::{Decimal, print};

// Prints that the table is as before, or all zeros, or the record's version, from its bytes 8 to 15.
pub fn print_change(rt: &impl Print, before: &[u8; 256], after: &[u8; 256]) -> io::Result<()> {
    if before == after {
        print(rt, b"table as before\n")
    } else if slice::is_zero(after) {
        print(rt, b"128 zeros\n")
    } else {
        println!(rt; "version {}", Decimal(slice::get8(after, 8)))
    }
}

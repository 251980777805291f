// Text for a terminal: bytes as they are, numbers, bytes in quotes with the unprintable ones escaped, and replies as redis-cli prints them.
#![tactic(auto)]

mod digits;
mod error;
mod escape;
mod numeral;
mod page;
mod printed;
mod text;

pub use digits::decimal;
pub use error::complain_error;
pub use escape::Quoted;
pub use numeral::Decimal;
pub use page::print_line;
pub use printed::print_reply;
pub use text::{Complaints, complain, complain_text, print};

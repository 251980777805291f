// The program's arguments: options, then the words of a command.
#![tactic(auto)]

mod line;
mod numbers;
mod switch;
mod words;

pub use line::{Line, count_arguments, read_line};
pub use numbers::{number_at, path_at, records_at};
pub use words::compose;

// The room for a command, of which 512 bytes can be used. One that fills it is refused by its length.
pub const ROOM: usize = 1024;

// What differs between two tables, printed.
ghost use Rattle.std.specs.Prelude.{◌≡◌, length};
ghost use Rattle.model.specs.Difference.{report};

use difference::ROOM;
use std::io;
use terminal::print;

// How many bytes tell what differs, and what became of writing them.
// Kept: not an `io::Result<usize>`, since the count is promised also where they cannot be written.
#[derive(Clone, Copy)]
pub struct Printed {
    pub len: usize,
    pub written: io::Result<()>,
}

// Prints the lines for two tables, or which of them is no good table.
pub fn print_difference(rt: &impl Print, before: &[u8], after: &[u8]) -> Printed
    ensures { result.len ≡ length (report before.now after.now) }
{
    let mut page = [0u8; ROOM];
    let len = difference::write(before, after, &mut page);
    let written = print(rt, &page[..len]);
    Printed { len, written }
}

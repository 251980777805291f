// What differs between two tables, as lines of text.
#![tactic(auto)]

mod fields;
mod line;
mod walk;

ghost use Rattle.std.specs.Prelude.{◌≤◌, length};
ghost use Rattle.model.specs.Difference.{report};
ghost use Rattle.slice.specs.Wrote.{Wrote};

use record::Form;
use walk::write_between;

// The room for the lines of any two tables: 51 bytes for each of 512 records.
pub const ROOM: usize = 26112;

// Writes the lines for two tables at the start of a buffer, or which of them is no good table, and gives back how many bytes were written.
pub fn write(before: &[u8], after: &[u8], out: &mut [u8]) -> usize
    requires { 26112 ≤ length out.old }
    ensures { Wrote 0 (report before.now after.now) out.old out.new result }
{
    if !integrity::is_good(before, Form::Of128) {
        slice::copy(out, 0, b"bad 1\n");
        return 6;
    }
    if !integrity::is_good(after, Form::Of128) {
        slice::copy(out, 0, b"bad 2\n");
        return 6;
    }
    let mut first = [0; 256];
    let mut second = [0; 256];
    write_between(before, after, &mut first, &mut second, out)
}

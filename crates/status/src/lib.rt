// What an answer, or a comparison of two tables, comes to at the command line: whether the table's file is written, and the exit status.
#![tactic(auto)]

ghost use Rattle.std.specs.Prelude.{◌≡◌};
ghost use Rattle.status.specs.Status.{to_write, status_of, told_status, status_after, open_after, status_between};

// Exit statuses.
// Kept: numbers and not an enum, since two of them are the same and they are told and compared as numbers.

// Answered.
pub const DONE: u64 = 0;

// Answered by an error.
pub const ERROR: u64 = 1;

// Two tables were compared, and they differ.
pub const DIFFERENT: u64 = 1;

// Refused, with a line on standard error.
pub const REFUSED: u64 = 2;

// The table did change, and the reply could not be written.
pub const UNTOLD: u64 = 3;

// The keeper of the table's lock has ended.
pub const LOST: u64 = 70;

// The exit status of an answer by its number.
pub fn status_of(number: u32) -> u64
    ensures { result ≡ status_of number }
{
    match number {
        0 => DONE,
        5..=17 => ERROR,
        _ => REFUSED,
    }
}

// The exit status of an answer whose reply was written or not, after a command that changed the table or not.
pub fn status_told(written: bool, changed: bool, number: u32) -> u64
    ensures { result ≡ told_status written changed number }
{
    match (written, changed) {
        (true, _) => status_of(number),
        (false, true) => UNTOLD,
        (false, false) => REFUSED,
    }
}

// The exit status of a stream of commands: the highest of theirs. `before` is that of the commands before the next one.
pub fn status_after(before: u64, next: u64) -> u64
    ensures { result ≡ status_after before next }
{
    before.max(next)
}

// Whether a stream goes on after a command with an exit status: not where a reply is missing, since its reader would count the later ones wrongly.
pub fn is_open_after(status: u64) -> bool
    ensures { result ≡ open_after status }
{
    status <= ERROR
}

// The exit status of a comparison of two tables, each good or not, told in `len` bytes: 0 where they hold the same, 1 where they differ, 2 where
// one is no good table.
pub fn status_between(first: bool, second: bool, len: usize) -> u64
    ensures { result ≡ status_between first second len }
{
    match (first && second, len) {
        (false, _) => REFUSED,
        (true, 0) => DONE,
        (true, _) => DIFFERENT,
    }
}

// Whether a table is to be written over its file, which has the bytes `old`, after an answer with a number.
pub fn is_to_write(number: u32, old: &[u8], table: &[u8]) -> bool
    ensures { result ≡ to_write number old.now table.now }
{
    number == 0 && old != table
}

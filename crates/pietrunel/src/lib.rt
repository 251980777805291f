// The library's functions for C: a slice crosses as a pointer and a length. Kept: numbers, flags and what is told by `&mut`, since they are the C interface.
#![tactic(auto)]

mod view;

ghost use Rattle.std.specs.Prelude.{◌≡◌};
ghost use Rattle.model.specs.Table.{form128};
ghost use Rattle.model.specs.Build.{begin_in, add_word_in};
ghost use Rattle.model.specs.Call.{call};
ghost use Rattle.model.specs.CurrentValue.{current_value};
ghost use Rattle.store.specs.Called.{Called};
ghost use Rattle.feed.specs.Feeds.{inputs};
ghost use Rattle.pietrunel.specs.Located.{Located};
ghost use Rattle.pietrunel.specs.Reports.{Reports};
ghost use Rattle.pietrunel.specs.Views.{view_of, call_by, value_by};

use crate::view::view_of;
use current::Shown;
use feed::Progress;
use outcome::Refusal;

// Given back where a command is not whole yet; no call of the store gives this number.
const MORE: u32 = 100;

// Applies one command to a table: document 01's number, the reply's length, the reply and the changed table.
#[unsafe(no_mangle)]
pub extern "C" fn pietrunel_call(
    table: &mut [u8],
    time: u64,
    command: &[u8],
    reply: &mut [u8],
    used: &mut usize,
) -> u32
    ensures { Called (call form128 table.old time command.now reply.old) (record { number = result; len = used.new }) table.new reply.new }
{
    let answer = store::call(table, time, command, reply);
    *used = answer.len;
    answer.number
}

// Whether a command shows a current value, and where it stands; where it shows none, false and zeros.
#[unsafe(no_mangle)]
pub extern "C" fn pietrunel_current_value(
    table: &[u8],
    time: u64,
    command: &[u8],
    inside: &mut bool,
    start: &mut usize,
    len: &mut usize,
) -> bool
    ensures { Located (current_value form128 table.now time command.now) result inside.new start.new len.new }
{
    let Some(shown) = current::locate(table, time, command) else {
        *inside = false;
        *start = 0;
        *len = 0;
        return false;
    };
    match shown {
        Shown::InTable {
            start: from,
            len: count,
        } => {
            *inside = false;
            *start = from;
            *len = count;
            true
        }
        Shown::InCommand {
            start: from,
            len: count,
        } => {
            *inside = true;
            *start = from;
            *len = count;
            true
        }
    }
}

// Applies one command to the part of a table that a party has at a boundary, counted in records: party 0 the whole table, 1 the owner, 2 the
// installer. Another party is refused as a damaged table is.
#[unsafe(no_mangle)]
pub extern "C" fn pietrunel_shared_call(
    party: u32,
    boundary: usize,
    table: &mut [u8],
    time: u64,
    command: &[u8],
    reply: &mut [u8],
    used: &mut usize,
) -> u32
    ensures { Called (call_by (view_of party boundary) table.old time command.now reply.old) (record { number = result; len = used.new }) table.new reply.new }
{
    let Some(view) = view_of(party, boundary) else {
        *used = 0;
        return Refusal::Damaged.number();
    };
    let done = shared::call(table, view, time, command, reply);
    *used = done.len;
    done.number
}

// Whether a command on a party's part shows a current value, and where it stands, counted from the table's start.
#[unsafe(no_mangle)]
pub extern "C" fn pietrunel_shared_current_value(
    party: u32,
    boundary: usize,
    table: &[u8],
    time: u64,
    command: &[u8],
    inside: &mut bool,
    start: &mut usize,
    len: &mut usize,
) -> bool
    ensures { Located (value_by (view_of party boundary) table.now time command.now) result inside.new start.new len.new }
{
    *inside = false;
    *start = 0;
    *len = 0;
    let Some(view) = view_of(party, boundary) else {
        return false;
    };
    let Ok(part) = partition::part_in(table, view) else {
        return false;
    };
    let own = &table[part.start..part.end];
    let shown = pietrunel_current_value(own, time, command, inside, start, len);
    let in_table = shown & !*inside;
    if in_table {
        *start += part.start;
    }
    shown
}

// Begins a command of 1 to 16 words at the front of a buffer: its length; where it is refused, 0, and nothing is changed.
#[unsafe(no_mangle)]
pub extern "C" fn pietrunel_begin_command(command: &mut [u8], words: usize) -> usize
    ensures { begin_in command.old words ≡ (command.new, result) }
{
    build::begin_command(command, words).unwrap_or(0)
}

// Adds a word to the command that the first `len` bytes of a buffer begin: its length then; where it is refused, 0, and nothing is changed.
#[unsafe(no_mangle)]
pub extern "C" fn pietrunel_add_word(command: &mut [u8], len: usize, word: &[u8]) -> usize
    ensures { add_word_in command.old len word.now ≡ (command.new, result) }
{
    build::add_word(command, len, word).unwrap_or(0)
}

// Takes a piece of a command, behind the first `held` bytes of an assembler; a command that it makes whole is applied to a table.
#[unsafe(no_mangle)]
pub extern "C" fn pietrunel_feed(
    bytes: &mut [u8],
    held: &mut usize,
    piece: &[u8],
    taken: &mut usize,
    table: &mut [u8],
    time: u64,
    reply: &mut [u8],
    used: &mut usize,
) -> u32
    ensures { Reports (call form128) bytes.old held.old (inputs piece.now table.old time reply.old) result taken.new held.new used.new bytes.new table.new reply.new }
{
    let before = *held;
    match feed::feed(bytes, before, piece, table, time, reply) {
        Progress::More(count) => {
            *held = count;
            *taken = piece.len();
            *used = 0;
            MORE
        }
        Progress::Answered(count, told) => {
            *held = 0;
            *taken = count;
            *used = told.len;
            told.number
        }
    }
}

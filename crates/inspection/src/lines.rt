// The records of a table, a line each.
ghost use Rattle.std.specs.Prelude.{◌≤◌, ◌/◌, length};
ghost use Rattle.record.specs.Record.{InUse};

use crate::SIZE;
use crate::calendar::Date;
use crate::fault::fault_of;
use std::ops::Range;
use std::{fmt, io};
use terminal::{Decimal, Quoted, print_line};

// An expiry as a number and as a date; 0 is none.
#[derive(Clone, Copy)]
struct Expiry(u64);

impl fmt::Display for Expiry {
    fn fmt<W: fmt::Write>(&self, f: &mut fmt::Formatter<W>) -> fmt::Result {
        match self.0 {
            0 => write!(f, "no expiry"),
            time => write!(f, "expiry {} ({})", Decimal(time), Date(time)),
        }
    }
}

// Prints a record in use on a line, in one write. Where it cannot be written, neither can the last line, of which this is told.
fn print_record(rt: &impl Print, r: &[u8], slot: usize, time: u64)
    requires { InUse r.now }
{
    let slot = Decimal(slot as u64);
    let key = Quoted(record::key(r));
    let value = Quoted(record::value(r));
    let version = Decimal(record::version(r));
    let flags = Decimal(record::flags(r) as u64);
    let expiry = Expiry(record::expiry(r));
    let state = if record::is_live(r, time) {
        "live"
    } else {
        "expired"
    };
    let _ = print_line(
        rt,
        format_args!(
            "slot {slot}: {key} = {value}, version {version}, flags {flags}, {expiry}, {state}"
        ),
    );
}

// Prints the record of a slot where it holds one in use and is asked for; gives back whether it holds one.
fn list_slot(rt: &impl Print, r: &[u8; SIZE], slot: usize, time: u64, shown: bool) -> bool {
    if fault_of(r).is_some() {
        return false;
    }
    if !record::in_use(r) {
        return false;
    }
    if shown {
        print_record(rt, r, slot, time);
    }
    true
}

// Prints the records in use of some slots where they are asked for, and how many of those slots hold one; gives back what became of writing the
// last line.
pub fn list_records(
    rt: &impl Print,
    table: &[u8],
    slots: Range<usize>,
    time: u64,
    shown: bool,
) -> io::Result<()>
    requires { (slots.start ≤ slots.end) × (slots.end ≤ length table.now / 128) }
{
    let (records, _) = table.as_chunks::<SIZE>();
    let first = slots.start;
    let n = slots.len();
    let mut used: usize = 0;
    for (i, r) in records[slots].iter().enumerate() {
        if list_slot(rt, r, first + i, time, shown) {
            used += 1;
        }
    }
    let used = Decimal(used as u64);
    let all = Decimal(n as u64);
    print_line(rt, format_args!("{used} of {all} records in use"))
}

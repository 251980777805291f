// What is wrong with a table: a line for its length and one for each slot, with the rule that is broken.
ghost use Rattle.std.specs.Prelude.{◌≡◌, ◌≤◌, ◌<◌, length, not, IfSome};
ghost use Rattle.model.specs.Table.{form128, read_slot};
ghost use Rattle.model.specs.Optional.{is_some};
ghost use Rattle.outcome.specs.Outcome.{to_model};
ghost use Rattle.inspection.specs.Parts.{part_start};

use crate::SIZE;
use record::{
    EXPIRY_AT, Form, KEY_AT, KEY_LENGTH_AT, MARK_AT, TIME_LIMIT, USE_AT, USED, VALUE_AT,
    VALUE_LENGTH_AT, VERSION_AT, VERSION_LIMIT,
};
use std::fmt;
use terminal::{Complaints, Decimal, complain, complain_text};

// The most records.
const MOST: usize = 256;

// The rule that a slot breaks: the first of these. Its text ends the line, so that both are written at once.
#[derive(Clone, Copy)]
pub enum Fault {
    Empty,
    Use,
    KeyLength,
    ValueLength,
    Mark,
    Version,
    Expiry,
    AfterKey,
    AfterValue,
}

impl fmt::Display for Fault {
    fn fmt<W: fmt::Write>(&self, f: &mut fmt::Formatter<W>) -> fmt::Result {
        f.write_str(match self {
            Fault::Empty => "an empty record has a byte that is not 0\n",
            Fault::Use => "byte 0 is neither 0 nor 1\n",
            Fault::KeyLength => "the key's length is not 1 to 24\n",
            Fault::ValueLength => "the value's length is above 64\n",
            Fault::Mark => "byte 3 is not 0\n",
            Fault::Version => "the version is 2^63 or more\n",
            Fault::Expiry => "the expiry is above 2^62\n",
            Fault::AfterKey => "a byte after the key is not 0\n",
            Fault::AfterValue => "a byte after the value is not 0\n",
        })
    }
}

// The rule that bytes 0 to 23 of a record in use break.
fn head_fault(r: &[u8; SIZE]) -> Option<Fault> {
    if r[USE_AT] != USED {
        return Some(Fault::Use);
    }
    if r[KEY_LENGTH_AT] < 1 || 24 < r[KEY_LENGTH_AT] {
        return Some(Fault::KeyLength);
    }
    if 64 < r[VALUE_LENGTH_AT] {
        return Some(Fault::ValueLength);
    }
    if r[MARK_AT] != 0 {
        return Some(Fault::Mark);
    }
    if VERSION_LIMIT <= slice::get8(r, VERSION_AT) {
        return Some(Fault::Version);
    }
    if TIME_LIMIT < slice::get8(r, EXPIRY_AT) {
        return Some(Fault::Expiry);
    }
    None
}

// The rule that bytes break that are no record.
fn broken_rule(r: &[u8; SIZE]) -> Fault {
    if r[USE_AT] == 0 {
        return Fault::Empty;
    }
    if let Some(fault) = head_fault(r) {
        return fault;
    }
    let key_end = KEY_AT + r[KEY_LENGTH_AT] as usize;
    if key_end < VALUE_AT && !slice::is_zero(&r[key_end..VALUE_AT]) {
        return Fault::AfterKey;
    }
    Fault::AfterValue
}

// The rule that the bytes of a slot break; none exactly where they are a record.
pub fn fault_of(r: &[u8; SIZE]) -> Option<Fault>
    ensures { not (is_some (to_model result)) ≡ is_some (read_slot form128 r.now) }
{
    if record::readable(r, Form::Of128) {
        return None;
    }
    Some(broken_rule(r))
}

// Whether two slots hold records in use with equal keys. What takes least is tested first.
fn is_twin(r: &[u8; SIZE], s: &[u8; SIZE]) -> bool {
    s[USE_AT] == USED
        && r[KEY_LENGTH_AT] == s[KEY_LENGTH_AT]
        && r[KEY_AT..VALUE_AT] == s[KEY_AT..VALUE_AT]
        && fault_of(s).is_none()
}

// The first slot of a slot's part, where the parts meet at a boundary. At 0 they are one.
fn part_start(slot: usize, boundary: usize) -> usize
    ensures { (result ≤ slot) × (result ≡ part_start slot boundary) }
{
    if slot < boundary {
        return 0;
    }
    boundary
}

// A table whose two parts meet at a boundary, and its file; what is wrong with it is told.
#[derive(Clone, Copy)]
struct Subject<'a> {
    records: &'a [[u8; SIZE]],
    boundary: usize,
    path: &'a [u8],
}

impl Subject<'_> {
    // The first slot before a slot and in its part that has an equal key.
    fn twin_of(&self, r: &[u8; SIZE], slot: usize) -> Option<usize>
        requires { slot ≤ length self.now.records.now }
        ensures { IfSome result (λ i. (part_start slot self.now.boundary ≤ i) × (i < slot)) }
    {
        let start = part_start(slot, self.boundary);
        let i = self.records[start..slot]
            .iter()
            .position(|s| is_twin(r, s))?;
        Some(start + i)
    }

    // Begins the line on a slot.
    fn tell_slot(&self, rt: &impl Complaints, slot: usize) {
        complain(rt, b"pietrunel: ");
        complain(rt, self.path);
        complain_text(rt, format_args!(": slot {}: ", Decimal(slot as u64)));
    }

    // Tells what is wrong with a slot, if anything is. A key is compared with those of the slot's part alone.
    fn tell_fault(&self, rt: &impl Complaints, r: &[u8; SIZE], slot: usize)
        requires { slot ≤ length self.now.records.now }
    {
        if let Some(fault) = fault_of(r) {
            self.tell_slot(rt, slot);
            complain_text(rt, fault);
            return;
        }
        if r[USE_AT] != USED {
            return;
        }
        if let Some(twin) = self.twin_of(r, slot) {
            self.tell_slot(rt, slot);
            let twin = Decimal(twin as u64);
            complain_text(rt, format_args!("the key is that of slot {twin} too\n"));
        }
    }
}

// Tells what is wrong with the length of a table, if anything is.
fn tell_length(rt: &impl Complaints, len: usize, path: &[u8]) {
    let right = len % SIZE == 0 && SIZE <= len && len <= MOST * SIZE;
    if !right {
        complain(rt, b"pietrunel: ");
        complain(rt, path);
        complain(
            rt,
            b": its length is not that of 1 to 256 records of 128 bytes\n",
        );
    }
}

// Tells all that is wrong with a table whose two parts meet at a boundary, counted in records; with 0 it is one part.
pub fn tell_faults(rt: &impl Complaints, table: &[u8], boundary: usize, path: &[u8]) {
    tell_length(rt, table.len(), path);
    let (records, _) = table.as_chunks::<SIZE>();
    let subject = Subject {
        records,
        boundary,
        path,
    };
    for (slot, r) in records.iter().enumerate() {
        subject.tell_fault(rt, r, slot);
    }
}

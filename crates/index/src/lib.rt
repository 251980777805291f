// The index of the keys of a table, in two borrowed arrays: a slot is entered, and a key is found by it.
#![tactic(auto)]

mod hash;

ghost use Rattle.std.specs.Prelude.{◌≡◌, ◌-◌, ◌<◌, ◌≤◌, length, bit_and, slice_index};
ghost use Rattle.std.specs.Option.{IfSome};
ghost use Rattle.model.specs.Table.{key_limit};
ghost use Rattle.outcome.specs.Outcome.{to_model};
ghost use Rattle.record.specs.Forms.{form_of};
ghost use Rattle.table.specs.Slots.{Reads, slots_of, key_slot};
ghost use Rattle.index.specs.Index.{key_entry, Indexed, Enters, Chain, entry_slot, slot_entry};

use record::{Form, KEY_LIMIT};

// The bucket of a hash, of `n` buckets. Where n is a power of two, a mask spares a division.
fn bucket(hash: u64, n: usize) -> usize
    requires { 1 ≤ n }
    ensures { (result ≡ bit_and hash (n - 1)) × (result < n) }
{
    hash as usize & (n - 1)
}

// Enters a slot by the 24 bytes of its key, and gives back the slot that was at the head of its bucket. Slots are entered from the last one
// down. No entry can name slot 0, which comes last. The slot's own entry is 0 before, so that only another one is written.
// Kept: an entry of the arrays is a byte, 0 for none, since the caller lends them and the library has no heap for options.
pub fn enter(heads: &mut [u8], next: &mut [u8], slot: usize, key: &[u8]) -> Option<usize>
    requires { (1 ≤ length heads.old) × (slot < length next.old) × (slot < 256) × (length key.now ≡ key_limit) × (slice_index next.old slot ≡ 0) }
    ensures entered { Enters slot key.now heads.old next.old (slot_entry result) heads.new next.new }
    ensures some { IfSome result (λ i. 0 < i) }
{
    let at = bucket(hash::of_padded(key), heads.len());
    let first = heads[at];
    if 0 < slot {
        heads[at] = slot as u8;
    }
    if first == 0 {
        return None;
    }
    next[slot] = first;
    Some(first as usize)
}

// The lowest slot on a chain, from an entry on, that has the key.
// Kept: a chain is followed from entry to entry, so that the loop has no range to go over.
pub fn search_chain(
    table: &[u8],
    form: Form,
    next: &[u8],
    first: usize,
    key: &[u8],
) -> Option<usize>
    requires { Chain (form_of form) table.now next.now first key.now }
    ensures { result ≡ entry_slot (key_entry (form_of form) table.now key.now first) }
{
    let mut at = first;
    while 0 < at {
        if record::has_key(table::slot(table, form, at), key) {
            return Some(at);
        }
        at = next[at] as usize;
    }
    None
}

// The slot of the record in use with the key, live or not. No record has a key longer than 24 bytes. Slot 0 is looked at by itself.
pub fn find(table: &[u8], form: Form, key: &[u8], heads: &[u8], next: &[u8]) -> Option<usize>
    requires reads { Reads (form_of form) table.now }
    requires indexed { Indexed (form_of form) table.now 0 heads.now next.now }
    ensures { to_model result ≡ key_slot key.now (slots_of (form_of form) table.now) }
{
    if KEY_LIMIT < key.len() {
        return None;
    }
    if record::has_key(table::slot(table, form, 0), key) {
        return Some(0);
    }
    if table::count(table, form) == 1 {
        return None;
    }
    let first = heads[bucket(hash::of_key(key), heads.len())] as usize;
    search_chain(table, form, next, first, key)
}

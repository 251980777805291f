// Writes to one slot of a table. Only the slot's record is borrowed on, so that all other records stay.
ghost use Rattle.std.specs.Prelude.{◌+◌, ◌≤◌, ◌<◌, ◌≡◌, length};
ghost use Rattle.model.specs.Table.{key_limit, empty, used};
ghost use Rattle.record.specs.Attributes.{record_with, with_attributes, joined_record};
ghost use Rattle.record.specs.Forms.{form_of};
ghost use Rattle.table.specs.Slots.{Reads, slots_of, record_in, InUseAt, with_slot};

use record::{Attributes, Form};

// Fills a slot with a record, all its bytes afresh.
pub fn store(
    table: &mut [u8],
    form: Form,
    slot: usize,
    key: &[u8],
    value: &[u8],
    attributes: Attributes,
)
    requires reads { Reads (form_of form) table.old }
    requires slot_in_bounds { slot < length (slots_of (form_of form) table.old) }
    requires key_len_bound { (length key.now ≤ key_limit) × (length value.now ≤ (form_of form).value_limit) }
    ensures { table.new ≡ with_slot (form_of form) table.old slot (used (record_with key.now value.now attributes)) }
{
    let from = crate::start(table.len(), form, slot);
    let end = from + record::size(form);
    record::write(&mut table[from..end], form, key, value, attributes);
}

// Makes a slot empty.
pub fn clear(table: &mut [u8], form: Form, slot: usize)
    requires reads { Reads (form_of form) table.old }
    requires slot_in_bounds { slot < length (slots_of (form_of form) table.old) }
    ensures { table.new ≡ with_slot (form_of form) table.old slot empty }
{
    let from = crate::start(table.len(), form, slot);
    let end = from + record::size(form);
    record::clear(&mut table[from..end]);
}

// Stores other attributes in the record in use at a slot.
pub fn set_attributes(table: &mut [u8], form: Form, slot: usize, attributes: Attributes)
    requires reads { Reads (form_of form) table.old }
    requires in_use_at { InUseAt (form_of form) table.old slot }
    ensures { table.new ≡ with_slot (form_of form) table.old slot (used (with_attributes attributes (record_in (form_of form) table.old slot))) }
{
    let from = crate::start(table.len(), form, slot);
    let end = from + record::size(form);
    record::set_attributes(&mut table[from..end], attributes);
}

// Joins bytes to the value of the record in use at a slot, at its front or at its back, and stores other attributes.
pub fn join(
    table: &mut [u8],
    form: Form,
    slot: usize,
    s: &[u8],
    front: bool,
    attributes: Attributes,
)
    requires reads { Reads (form_of form) table.old }
    requires in_use_at { InUseAt (form_of form) table.old slot }
    requires s_len_bound { length (record_in (form_of form) table.old slot).value + length s.now ≤ (form_of form).value_limit }
    ensures { table.new ≡ with_slot (form_of form) table.old slot (used (joined_record front s.now attributes (record_in (form_of form) table.old slot))) }
{
    let from = crate::start(table.len(), form, slot);
    let end = from + record::size(form);
    record::join(&mut table[from..end], s, front, attributes);
}

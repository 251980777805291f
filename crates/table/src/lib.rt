// The slots of a table: the part that is a slot, the search for a free slot, and the writes to a slot.
#![tactic(auto)]

mod change;
mod lookup;

ghost use Rattle.std.specs.Prelude.{◌+◌, ◌*◌, ◌/◌, ◌≤◌, ◌≡◌, length};
ghost use Rattle.model.specs.Table.{record_size, record_at};
ghost use Rattle.record.specs.Forms.{form_of};
ghost use Rattle.table.specs.Slots.{Inside, Reads, InUseAt, IsRecord};

pub use change::{clear, join, set_attributes, store};
pub use lookup::free_slot;
use record::Form;

// How many whole slots a table has. The sizes stand here as constants, so that no division is compiled.
pub fn count(table: &[u8], form: Form) -> usize
    ensures { result ≡ length table.now / record_size (form_of form) }
{
    match form {
        Form::Of128 => table.len() / 128,
        Form::Of192 => table.len() / 192,
    }
}

// The place of a slot in a table of `len` bytes.
pub fn start(len: usize, form: Form, slot: usize) -> usize
    requires { slot * record_size (form_of form) + record_size (form_of form) ≤ len }
    ensures { result ≡ slot * record_size (form_of form) }
{
    slot * record::size(form)
}

// The part of a table that is a slot.
pub fn slot(table: &[u8], form: Form, slot: usize) -> &[u8]
    requires { Inside (form_of form) table.now slot }
    ensures { result.now ≡ record_at (form_of form) slot table.now }
{
    let from = start(table.len(), form, slot);
    &table[from..from + record::size(form)]
}

// The bytes of the record in use at a slot.
pub fn record_at(table: &[u8], form: Form, slot: usize) -> &[u8]
    requires reads { Reads (form_of form) table.now }
    requires in_use_at { InUseAt (form_of form) table.now slot }
    ensures { IsRecord (form_of form) table.now slot result.now }
{
    crate::slot(table, form, slot)
}

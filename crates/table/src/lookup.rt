// The search for a slot that a new record may take.
ghost use Rattle.std.specs.Prelude.{◌≡◌};
ghost use Rattle.model.specs.Table.{is_empty};
ghost use Rattle.model.specs.Search.{lowest, is_expired, free_slot};
ghost use Rattle.outcome.specs.Outcome.{to_model};
ghost use Rattle.record.specs.Forms.{form_of};
ghost use Rattle.table.specs.Slots.{Reads, slots_of};

use record::Form;

// The lowest empty slot.
fn empty_slot(table: &[u8], form: Form) -> Option<usize>
    requires { Reads (form_of form) table.now }
    ensures { to_model result ≡ lowest is_empty (slots_of (form_of form) table.now) }
{
    let n = crate::count(table, form);
    for i in 0..n {
        if !record::in_use(crate::slot(table, form, i)) {
            return Some(i);
        }
    }
    None
}

// The lowest slot with an expired record. An empty record has no expiry, so that its bytes need no test of their own.
fn expired_slot(table: &[u8], form: Form, time: u64) -> Option<usize>
    requires { Reads (form_of form) table.now }
    ensures { to_model result ≡ lowest (is_expired time) (slots_of (form_of form) table.now) }
{
    let n = crate::count(table, form);
    for i in 0..n {
        if !record::is_live(crate::slot(table, form, i), time) {
            return Some(i);
        }
    }
    None
}

// The lowest empty slot, else the lowest with an expired record. Most tables have an empty slot, and one byte tells of it.
pub fn free_slot(table: &[u8], form: Form, time: u64) -> Option<usize>
    requires { Reads (form_of form) table.now }
    ensures { to_model result ≡ free_slot time (slots_of (form_of form) table.now) }
{
    empty_slot(table, form).or_else(|| expired_slot(table, form, time))
}

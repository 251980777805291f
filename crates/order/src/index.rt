// The index of a table, made slot by slot.
ghost use Rattle.std.specs.Prelude.{◌+◌, ◌≤◌, ◌<◌, length};
ghost use Rattle.record.specs.Forms.{form_of};
ghost use Rattle.table.specs.Slots.{Good, slots_of};
ghost use Rattle.order.specs.Places.{Lists};

use crate::search::{find_place, put_in};
use record::Form;

// Puts a slot into the index of those after it, if it is in use, and gives back how many numbers the index then has.
fn enter(table: &[u8], form: Form, slot: usize, list: &mut [u8], n: usize) -> usize
    requires good { Good (form_of form) table.now }
    requires slot_in_bounds { (slot < length (slots_of (form_of form) table.now)) × (length (slots_of (form_of form) table.now) ≤ length list.old) }
    requires lists { Lists (form_of form) table.now (slot + 1) (length list.old) list.old n }
    ensures { Lists (form_of form) table.now slot (length list.old) list.new result }
{
    let r = table::slot(table, form, slot);
    if !record::in_use(r) {
        return n;
    }
    match find_place(table, form, list, n, record::key(r)) {
        // keys are distinct, so that none of those after it has this one
        Ok(_) => n,
        Err(place) => {
            put_in(list, n, place, slot as u8);
            n + 1
        }
    }
}

// Makes the index of a good table, zeros after it, and gives back how many numbers it has. Slots are entered from the last one down, each by a
// search in those after it.
pub fn make_index(table: &[u8], form: Form, list: &mut [u8]) -> usize
    requires good { Good (form_of form) table.now }
    requires table_in_bounds { length (slots_of (form_of form) table.now) ≤ length list.old }
    ensures { Lists (form_of form) table.now 0 (length list.old) list.new result }
{
    slice::clear(list);
    let mut n = 0;
    for slot in (0..table::count(table, form)).rev() {
        n = enter(table, form, slot, list, n);
    }
    n
}

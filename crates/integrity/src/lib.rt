// The check of a table: its length, each record, and that no two keys are equal. It makes the index by which a key is then found.
#![tactic(auto)]

mod size;

ghost use Rattle.std.specs.Prelude.{◌≡◌, ◌≤◌, ◌<◌, length, get_or};
ghost use Rattle.model.specs.Table.{record_size};
ghost use Rattle.record.specs.Forms.{form_of};
ghost use Rattle.integrity.specs.Check.{faultless, Fresh, Checks, Tests};

use outcome::Refusal;
use record::{Form, KEY_AT, VALUE_AT};
pub use size::has_size;

// The most records of a table.
const TABLE_LIMIT: usize = 256;

// Whether the table keeps all rules. Slots are passed from the last one down; each is tested, entered, and its key compared with those of its
// bucket that were passed.
pub fn check(table: &[u8], form: Form, heads: &mut [u8], next: &mut [u8]) -> bool
    requires { Fresh (form_of form) table.now heads.old next.old }
    ensures { Checks (form_of form) table.now heads.new next.new result }
{
    let n = table::count(table, form);
    if n * record::size(form) != table.len() {
        return false;
    }
    if n < 1 {
        return false;
    }
    if TABLE_LIMIT < n {
        return false;
    }
    for i in (0..n).rev() {
        let r = table::slot(table, form, i);
        match enter(r, form, i, heads, next) {
            Ok(None) => {}
            Ok(Some(first)) => {
                if index::search_chain(table, form, next, first, record::key(r)).is_some() {
                    return false;
                }
            }
            Err(_) => {
                return false;
            }
        }
    }
    true
}

// Whether the table keeps all rules, for a caller that needs no index.
pub fn is_good(table: &[u8], form: Form) -> bool
    ensures { result ≡ faultless (form_of form) table.now }
{
    let mut heads = [0; 2048];
    let mut next = [0; 256];
    check(table, form, &mut heads, &mut next)
}

// Tests the bytes of a slot, and enters it if they are a record in use. It gives back the slot with which the chain of its bucket began, if one
// entered before shares its bucket.
fn enter(
    r: &[u8],
    form: Form,
    slot: usize,
    heads: &mut [u8],
    next: &mut [u8],
) -> Result<Option<usize>, Refusal>
    requires { (length r.now ≡ record_size (form_of form)) × (slot < 256) × (1 ≤ length heads.old) × (slot < length next.old) × (get_or next.old slot 0 ≡ 0) }
    ensures { Tests (form_of form) slot r.now heads.old next.old heads.new next.new result }
{
    if !record::in_use(r) {
        if slice::is_zero(r) {
            return Ok(None);
        }
        return Err(Refusal::Damaged);
    }
    if !record::is_record(r, form) {
        return Err(Refusal::Damaged);
    }
    Ok(index::enter(heads, next, slot, &r[KEY_AT..VALUE_AT]))
}

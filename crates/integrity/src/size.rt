// The length of a table.
ghost use Rattle.std.specs.Prelude.{◌≡◌};
ghost use Rattle.model.specs.Bytes.{all};
ghost use Rattle.model.specs.Table.{size_rules};
ghost use Rattle.record.specs.Forms.{form_of};

use crate::TABLE_LIMIT;
use record::Form;

// Whether a table has whole records, 1 to 256 of them.
// Kept: `check` makes these tests itself, since calling this function would cost each call of the store three instructions.
pub fn has_size(table: &[u8], form: Form) -> bool
    ensures { result ≡ all (size_rules (form_of form) table.now) }
{
    let n = table::count(table, form);
    if n * record::size(form) != table.len() {
        return false;
    }
    if n < 1 {
        return false;
    }
    n <= TABLE_LIMIT
}

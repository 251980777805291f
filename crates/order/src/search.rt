// Places in a list of slot numbers along which the keys rise: the search for a key, and a number put in.
ghost use Rattle.std.specs.Prelude.{◌≡◌, ◌∷◌, ◌-◌, ◌≤◌, ◌<◌, length};
ghost use Rattle.model.specs.Bytes.{part, written};
ghost use Rattle.record.specs.Forms.{form_of};
ghost use Rattle.table.specs.Slots.{Reads};
ghost use Rattle.order.specs.Places.{Ascends, Stands};

use crate::keys::compare;
use record::Form;
use std::cmp::Ordering;

// The place of a key among the first `n` numbers of a list, or the one at which it would be put in, by halves: of 256 keys at most nine are compared.
// Kept: `binary_search_by` asks that its closure can be called on any number, and only one of the list names a record in use.
pub fn find_place(
    table: &[u8],
    form: Form,
    list: &[u8],
    n: usize,
    key: &[u8],
) -> Result<usize, usize>
    requires reads { Reads (form_of form) table.now }
    requires ascends { Ascends (form_of form) table.now list.now n }
    ensures { Stands (form_of form) table.now list.now n key.now result }
{
    let mut low = 0;
    let mut high = n;
    while low < high {
        let middle = low + (high - low) / 2;
        let r = table::record_at(table, form, list[middle] as usize);
        match compare(key, record::key(r)) {
            Ordering::Less => {
                high = middle;
            }
            Ordering::Equal => {
                return Ok(middle);
            }
            Ordering::Greater => {
                low = middle + 1;
            }
        }
    }
    Err(low)
}

// Puts a number in at a place of the first `n`: those from there on move up by one.
pub fn put_in(list: &mut [u8], n: usize, place: usize, number: u8)
    requires { (place ≤ n) × (n < length list.old) }
    ensures { list.new ≡ written place (number ∷ part place (n - place) list.old) list.old }
{
    slice::move_up(&mut list[place..n + 1], n - place, 1);
    list[place] = number;
}

// A value into its slot: tests 15 to 17, and the record with all its fields.
#![tactic(auto)]

ghost use Rattle.std.specs.Prelude.{◌≤◌, ◌≡◌, length};
ghost use Rattle.std.proofs.Math.Option.{none};
ghost use Rattle.outcome.specs.Outcome.{to_model, checked};
ghost use Rattle.model.specs.Checked.{given};
ghost use Rattle.model.specs.Number.{int_text};
ghost use Rattle.model.specs.Table.{key_limit};
ghost use Rattle.model.specs.Execute.{joined};
ghost use Rattle.command.specs.Command.{model_expire, model_terms, model_end};
ghost use Rattle.table.specs.Slots.{Reads};
ghost use Rattle.live.specs.Under.{Sound, IsUnder, shape_of, slot_in};
ghost use Rattle.put.specs.Put.{attributes_after, is_front, put_in, value_in, Puts};

use command::{End, Expire, Join, Terms};
use live::{Lookup, Target};
use outcome::Refusal;
use record::Attributes;

// The slot that a write takes: that of the record under the key, live or expired, else a free one.
fn place(table: &[u8], target: Target) -> Result<usize, Refusal>
    requires { Reads (shape_of target) table.now }
    ensures { checked (λ i. i) result ≡ given 17 (slot_in table.now target) }
{
    match target.found {
        Lookup::Live { slot, .. } => Ok(slot),
        Lookup::Expired { slot } => Ok(slot),
        Lookup::Absent => table::free_slot(table, target.form, target.time).ok_or(Refusal::Full),
    }
}

// The attributes of a record that is written with a version.
fn attributes_after(found: Lookup, version: u64, expire: Expire, flags: Option<u32>) -> Attributes
    ensures { result ≡ attributes_after found version (model_expire expire) (to_model flags) }
{
    Attributes {
        flags: live::flags_after(found, flags),
        version,
        expiry: live::expiry_after(found, expire),
    }
}

// Stores a record with the value under the key, all its bytes afresh, and gives back its version.
pub fn store_value(
    table: &mut [u8],
    target: Target,
    key: &[u8],
    value: &[u8],
    terms: Terms,
    flags: Option<u32>,
) -> Result<u64, Refusal>
    requires sound { Sound (shape_of target) table.old target.found }
    requires key_len_bound { (length key.now ≤ key_limit) × (length value.now ≤ (shape_of target).value_limit) }
    ensures { Puts (shape_of target) table.old table.new result (put_in table.old target key.now (model_terms terms) (to_model flags) value.now) }
{
    let version = live::version_after(target.found, terms.change)?;
    let slot = place(table, target)?;
    let attributes = attributes_after(target.found, version, terms.expire, flags);
    table::store(table, target.form, slot, key, value, attributes);
    Ok(version)
}

// Stores a record with the text of a number under the key.
pub fn store_number(
    table: &mut [u8],
    target: Target,
    key: &[u8],
    z: i64,
    terms: Terms,
) -> Result<u64, Refusal>
    requires sound { Sound (shape_of target) table.old target.found }
    requires key_len_bound { length key.now ≤ key_limit }
    ensures { Puts (shape_of target) table.old table.new result (put_in table.old target key.now (model_terms terms) none (int_text z)) }
{
    let mut text = [0u8; 20];
    let len = number::write_signed(&mut text, 0, z);
    store_value(table, target, key, &text[..len], terms, None)
}

// Whether a text is joined at the front.
fn at_front(end: End) -> bool
    ensures { result ≡ is_front (model_end end) }
{
    matches!(end, End::Front)
}

// Joins a text to the live record's value, in place; under an absent key it is the value of a new record.
pub fn join_value(
    table: &mut [u8],
    target: Target,
    key: &[u8],
    value: &[u8],
    join: Join,
) -> Result<u64, Refusal>
    requires under { IsUnder (shape_of target) table.old target.time key.now target.found }
    requires key_len_bound { (length key.now ≤ key_limit) × (length value.now ≤ (shape_of target).value_limit) }
    ensures { Puts (shape_of target) table.old table.new result (put_in table.old target key.now (model_terms join.terms) none (joined (model_end join.end) value.now (value_in table.old target))) }
{
    let found = target.found;
    let terms = join.terms;
    let Lookup::Live { slot, .. } = found else {
        return store_value(table, target, key, value, terms, None);
    };
    let version = live::version_after(found, terms.change)?;
    let old = record::value(table::record_at(table, target.form, slot));
    if record::limit(target.form) < old.len() + value.len() {
        return Err(Refusal::Length);
    }
    let attributes = attributes_after(found, version, terms.expire, None);
    table::join(
        table,
        target.form,
        slot,
        value,
        at_front(join.end),
        attributes,
    );
    Ok(version)
}

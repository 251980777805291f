// The writes to one record. Only `write` asks for the form: the others keep it.
ghost use Rattle.std.specs.Prelude.{◌≡◌, ◌+◌, ◌-◌, ◌≤◌, length, take, replicate};
ghost use Rattle.model.specs.Bytes.{padded, written};
ghost use Rattle.model.specs.Table.{record_size, value_at, flags_at, key_limit, record_bytes};
ghost use Rattle.record.specs.Forms.{form_of};
ghost use Rattle.record.specs.Attributes.{record_with, with_attributes, joined_text, joined_record, attribute_bytes};
ghost use Rattle.record.specs.Record.{InUse, Fits, Changed, head};

use crate::{
    Attributes, EXPIRY_AT, FLAGS_AT, Form, KEY_AT, KEY_LENGTH_AT, MARK_AT, USE_AT, USED, VALUE_AT,
    VALUE_LENGTH_AT, VERSION_AT,
};

// Fills all bytes with a record in use.
pub fn write(r: &mut [u8], form: Form, key: &[u8], value: &[u8], attributes: Attributes)
    requires { (length r.old ≡ record_size (form_of form)) × (length key.now ≤ key_limit) × (length value.now ≤ (form_of form).value_limit) }
    ensures { r.new ≡ record_bytes (form_of form) (record_with key.now value.now attributes) }
{
    write_head(
        r,
        key.len() as u8,
        value.len() as u8,
        crate::mark(form),
        attributes,
    );
    slice::fill(&mut r[KEY_AT..VALUE_AT], key);
    write_value(r, form, value);
}

// Writes a value and zeros over the rest of a record.
// Kept: each form has a call of its own, in which the length is known, so that clearing takes no loop.
fn write_value(r: &mut [u8], form: Form, value: &[u8])
    requires { (length r.old ≡ record_size (form_of form)) × (length value.now ≤ (form_of form).value_limit) }
    ensures { r.new ≡ written value_at (padded (record_size (form_of form) - value_at) value.now) r.old }
{
    match form {
        Form::Of128 => slice::fill(&mut r[VALUE_AT..128], value),
        Form::Of192 => slice::fill(&mut r[VALUE_AT..192], value),
    }
}

// Writes bytes 0 to 23 of a record in use.
fn write_head(r: &mut [u8], key: u8, value: u8, mark: u8, attributes: Attributes)
    requires { value_at ≤ length r.old }
    ensures { r.new ≡ written 0 (head mark key value attributes) r.old }
{
    r[USE_AT] = USED;
    r[KEY_LENGTH_AT] = key;
    r[VALUE_LENGTH_AT] = value;
    r[MARK_AT] = mark;
    put_attributes(r, attributes);
}

// Writes bytes 4 to 23 of a record in use.
fn put_attributes(r: &mut [u8], attributes: Attributes)
    requires { value_at ≤ length r.old }
    ensures { r.new ≡ written flags_at (attribute_bytes attributes) r.old }
{
    slice::put4(r, FLAGS_AT, attributes.flags);
    slice::put8(r, VERSION_AT, attributes.version);
    slice::put8(r, EXPIRY_AT, attributes.expiry);
}

// Stores other attributes in a record in use.
pub fn set_attributes(r: &mut [u8], attributes: Attributes)
    requires { InUse r.old }
    ensures { Changed (with_attributes attributes) r.old r.new }
{
    put_attributes(r, attributes);
}

// Makes a record empty.
pub fn clear(r: &mut [u8])
    ensures { r.new ≡ replicate (length r.old) 0 }
{
    slice::clear(r);
}

// Joins bytes to the value of a record in use, at its front or at its back, and stores other attributes.
pub fn join(r: &mut [u8], s: &[u8], front: bool, attributes: Attributes)
    requires { InUse r.old × Fits r.old s.now }
    ensures { Changed (joined_record front s.now attributes) r.old r.new }
{
    let n = r[VALUE_LENGTH_AT] as usize;
    join_text(&mut r[VALUE_AT..], n, s, front);
    r[VALUE_LENGTH_AT] = (n + s.len()) as u8;
    put_attributes(r, attributes);
}

// Writes bytes after the first `n`, or before them; these are then moved up to make room.
fn join_text(buf: &mut [u8], n: usize, s: &[u8], front: bool)
    requires { n + length s.now ≤ length buf.old }
    ensures { buf.new ≡ written 0 (joined_text front s.now (take n buf.old)) buf.old }
{
    if front {
        slice::move_up(buf, n, s.len());
        slice::copy(buf, 0, s);
        return;
    }
    slice::copy(buf, n, s);
}

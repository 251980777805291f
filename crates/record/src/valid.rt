// Whether bytes are a record of a form.
ghost use Rattle.std.specs.Prelude.{◌≡◌, ◌-◌, ◌≤◌, length, eqb};
ghost use Rattle.model.specs.Table.{record_size, key_limit, value_at, read_slot, is_record};
ghost use Rattle.model.specs.Optional.{is_some};
ghost use Rattle.model.specs.Bytes.{part};
ghost use Rattle.slice.specs.Zeros.{zeros_from};
ghost use Rattle.record.specs.Forms.{form_of};
ghost use Rattle.record.specs.Record.{is_head};

use crate::{
    EXPIRY_AT, Form, KEY_AT, KEY_LENGTH_AT, KEY_LIMIT, MARK_AT, TIME_LIMIT, USE_AT, USED, VALUE_AT,
    VALUE_LENGTH_AT, VERSION_AT, VERSION_LIMIT,
};

// Whether the bytes are a record, empty or in use.
pub fn readable(r: &[u8], form: Form) -> bool
    requires { length r.now ≡ record_size (form_of form) }
    ensures { result ≡ is_some (read_slot (form_of form) r.now) }
{
    if r[USE_AT] == 0 {
        return slice::is_zero(r);
    }
    is_record(r, form)
}

// Whether the bytes are a record in use. What stands after its key and after its value is tested at once.
pub fn is_record(r: &[u8], form: Form) -> bool
    requires { length r.now ≡ record_size (form_of form) }
    ensures { result ≡ is_record (form_of form) r.now }
{
    if !is_head(r, form) {
        return false;
    }
    let after_key = bits_after_key(&r[KEY_AT..VALUE_AT], r[KEY_LENGTH_AT] as usize);
    let after_value = bits_after_value(r, form, r[VALUE_LENGTH_AT] as usize);
    after_key | after_value == 0
}

// The bits of the bytes after a key of `n` bytes, in its 24: 0 where they are zeros. A key that ends in the third word is shifted out of it; after
// any other, eight bytes are taken at a time, from its end or a later place on.
fn bits_after_key(key: &[u8], n: usize) -> u64
    requires { (1 ≤ n) × (n ≤ key_limit) × (length key.now ≡ key_limit) }
    ensures { eqb result 0 ≡ zeros_from n key.now }
{
    let last = slice::get8(key, 16);
    if 16 < n {
        return last >> (8 * (n - 17)) >> 8;
    }
    slice::get8(key, n) | slice::get8(key, n.max(8)) | last
}

// The bits of the bytes after a value of `n` bytes: 0 where they are zeros.
// Kept: each form has a call of its own, in which the loop's length is known; where it varies, there are no wide loads.
fn bits_after_value(r: &[u8], form: Form, n: usize) -> u64
    requires { (n ≤ (form_of form).value_limit) × (length r.now ≡ record_size (form_of form)) }
    ensures { eqb result 0 ≡ zeros_from n (part value_at (length r.now - value_at) r.now) }
{
    match form {
        Form::Of128 => slice::bits_from(&r[VALUE_AT..128], n, 64),
        Form::Of192 => slice::bits_from(&r[VALUE_AT..192], n, 128),
    }
}

// Whether bytes 0 to 23 can be of a record in use.
fn is_head(r: &[u8], form: Form) -> bool
    requires { value_at ≤ length r.now }
    ensures { result ≡ is_head (form_of form) r.now }
{
    let key_length = r[KEY_LENGTH_AT] as usize;
    let value_length = r[VALUE_LENGTH_AT] as usize;
    let value_fits = value_length <= crate::limit(form);
    let marked = r[MARK_AT] == crate::mark(form);
    let version_fits = slice::get8(r, VERSION_AT) < VERSION_LIMIT;
    let expiry_fits = slice::get8(r, EXPIRY_AT) <= TIME_LIMIT;
    (r[USE_AT] == USED)
        & ((1 <= key_length)
            & ((key_length <= KEY_LIMIT) & (value_fits & (marked & (version_fits & expiry_fits)))))
}

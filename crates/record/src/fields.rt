// The fields of a record. Where they stand does not depend on its form.
ghost use Rattle.std.specs.Prelude.{◌≡◌, ◌≤◌, length};
ghost use Rattle.model.specs.Table.{value_at, fields};
ghost use Rattle.model.specs.Search.{live};
ghost use Rattle.record.specs.Attributes.{attributes_of};
ghost use Rattle.record.specs.Record.{InUse, IsSlot, is_used, has_key};

use crate::{
    Attributes, EXPIRY_AT, FLAGS_AT, KEY_AT, KEY_LENGTH_AT, USE_AT, USED, VALUE_AT,
    VALUE_LENGTH_AT, VERSION_AT,
};

// Whether a record is in use.
pub fn in_use(r: &[u8]) -> bool
    requires { value_at ≤ length r.now }
    ensures { result ≡ is_used r.now }
{
    r[USE_AT] == USED
}

// The key of a record in use.
pub fn key(r: &[u8]) -> &[u8]
    requires { InUse r.now }
    ensures { result.now ≡ (fields r.now).key }
{
    let n = r[KEY_LENGTH_AT] as usize;
    &r[KEY_AT..KEY_AT + n]
}

// The value of a record in use.
// Kept: beside `key`, since one function of both would take the two places of each and say less.
pub fn value(r: &[u8]) -> &[u8]
    requires { InUse r.now }
    ensures { result.now ≡ (fields r.now).value }
{
    let n = r[VALUE_LENGTH_AT] as usize;
    &r[VALUE_AT..VALUE_AT + n]
}

// Whether a record is in use and has the key.
pub fn has_key(r: &[u8], key: &[u8]) -> bool
    requires { IsSlot r.now }
    ensures { result ≡ has_key key.now r.now }
{
    if !in_use(r) {
        return false;
    }
    slice::same(key, crate::key(r))
}

// The flags.
pub fn flags(r: &[u8]) -> u32
    requires { value_at ≤ length r.now }
    ensures { result ≡ (fields r.now).flags }
{
    slice::get4(r, FLAGS_AT)
}

// The version.
pub fn version(r: &[u8]) -> u64
    requires { value_at ≤ length r.now }
    ensures { result ≡ (fields r.now).version }
{
    slice::get8(r, VERSION_AT)
}

// The expiry.
pub fn expiry(r: &[u8]) -> u64
    requires { value_at ≤ length r.now }
    ensures { result ≡ (fields r.now).expiry }
{
    slice::get8(r, EXPIRY_AT)
}

// The flags, the version and the expiry.
pub fn attributes_of(r: &[u8]) -> Attributes
    requires { value_at ≤ length r.now }
    ensures { result ≡ attributes_of (fields r.now) }
{
    Attributes {
        flags: flags(r),
        version: version(r),
        expiry: expiry(r),
    }
}

// Whether a record is live at a time: it has no expiry, or a later one.
pub fn is_live(r: &[u8], time: u64) -> bool
    requires { value_at ≤ length r.now }
    ensures { result ≡ live time (fields r.now) }
{
    let e = expiry(r);
    if e == 0 {
        return true;
    }
    time < e
}

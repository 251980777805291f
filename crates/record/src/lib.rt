// One record: its forms and layout, its check, its fields, and the writes to it.
#![tactic(auto)]

mod fields;
mod valid;
mod writes;

ghost use Rattle.std.specs.Prelude.{◌≡◌};
ghost use Rattle.model.specs.Table.{record_size};
ghost use Rattle.record.specs.Forms.{form_of};

pub use fields::{attributes_of, expiry, flags, has_key, in_use, is_live, key, value, version};
pub use valid::{is_record, readable};
pub use writes::{clear, join, set_attributes, write};

// The forms of a record, by their size in bytes.
#[derive(Clone, Copy)]
pub enum Form {
    Of128,
    Of192,
}

// What a record in use has besides its key and its value.
#[derive(Clone, Copy)]
pub struct Attributes {
    pub flags: u32,
    pub version: u64,
    pub expiry: u64,
}

// The places of the fields of a record; from the value's on they differ by form.
pub const USE_AT: usize = 0;

pub const KEY_LENGTH_AT: usize = 1;

pub const VALUE_LENGTH_AT: usize = 2;

pub const MARK_AT: usize = 3;

pub const FLAGS_AT: usize = 4;

pub const VERSION_AT: usize = 8;

pub const EXPIRY_AT: usize = 16;

pub const KEY_AT: usize = 24;

pub const VALUE_AT: usize = 48;

// Byte 0 of a record in use.
pub const USED: u8 = 1;

// The longest key, the versions' end and the latest time: 2^63 and 2^62.
pub const KEY_LIMIT: usize = 24;

pub const VERSION_LIMIT: u64 = 9223372036854775808;

pub const TIME_LIMIT: u64 = 4611686018427387904;

// The bytes of a record.
pub fn size(form: Form) -> usize
    ensures { result ≡ record_size (form_of form) }
{
    match form {
        Form::Of128 => 128,
        Form::Of192 => 192,
    }
}

// The longest value.
pub fn limit(form: Form) -> usize
    ensures { result ≡ (form_of form).value_limit }
{
    match form {
        Form::Of128 => 64,
        Form::Of192 => 128,
    }
}

// Byte 3 of a record in use.
pub fn mark(form: Form) -> u8
    ensures { result ≡ (form_of form).mark }
{
    match form {
        Form::Of128 => 0,
        Form::Of192 => 2,
    }
}

// The least reply buffer that a call takes.
pub fn room(form: Form) -> usize
    ensures { result ≡ (form_of form).reply_room }
{
    match form {
        Form::Of128 => 128,
        Form::Of192 => 192,
    }
}

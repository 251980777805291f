// BITFIELD's subcommands, run left to right on a copy of the stored value. Nothing here writes to a table.
// Kept: the value is the first `len` bytes of a buffer, and the answers those of another, since the library has no heap for a Vec.
#![tactic(auto)]

ghost use Rattle.std.specs.Prelude.{◌≡◌, ◌+◌, ◌*◌, ◌≤◌, true, length, take, replicate};
ghost use Rattle.std.proofs.Math.Option.{some};
ghost use Rattle.outcome.specs.Outcome.{to_model};
ghost use Rattle.model.specs.Field.{is_int_type, end_bit, set_field};
ghost use Rattle.model.specs.Bitfield.{ends_within, all_end_within, stored, run_sub, run_subs, result_scalar};
ghost use Rattle.model.specs.Resp.{scalar_bytes};
ghost use Rattle.model.proofs.Basics.{All};
ghost use Rattle.model.proofs.Runs.{Typed};
ghost use Rattle.slice.specs.Wrote.{Wrote};
ghost use Rattle.command.specs.Subcommand.{model_int, model_field, model_sub, sub_at, model_subs};
ghost use Rattle.live.specs.Under.{Sound, shape_of};
ghost use Rattle.bitfield.specs.Run.{stored_value, Holds, Clean, Leaves, LeavesAll};

use command::{Field, Operation, Sub, Subs};
use live::{Lookup, Target};

// What a subcommand leaves: how long the value is, whether it wrote, and the number that it answers, which an INCRBY that fails has not.
#[derive(Clone, Copy)]
struct Done {
    len: usize,
    wrote: bool,
    answered: Option<i64>,
}

// What the subcommands leave: how long the value is, whether one wrote, and how long the text of their answers is.
#[derive(Clone, Copy)]
pub struct Ran {
    pub len: usize,
    pub wrote: bool,
    pub end: usize,
}

// Subcommand `i`; past the fourth place the fourth stands again.
fn sub_at(subs: &Subs, i: usize) -> Sub
    ensures { result ≡ sub_at subs.now i }
{
    subs.list[i.min(3)]
}

// Whether a subcommand's field ends within so many bytes. GET may read anywhere.
fn ends_within(sub: Sub, limit: usize) -> bool
    requires { limit ≤ 128 }
    ensures { result ≡ ends_within limit (model_sub sub) }
{
    if let Operation::Get = sub.operation {
        return true;
    }
    let bits = 8 * limit as u64;
    let width = sub.field.int.width as u64;
    width <= bits && sub.field.offset <= bits - width
}

// Whether every subcommand that may write has a field within so many bytes.
pub fn all_end_within(subs: Subs, limit: usize) -> bool
    requires { limit ≤ 128 }
    ensures { result ≡ all_end_within limit (model_subs subs) }
{
    for i in 0..subs.count {
        if !ends_within(sub_at(&subs, i), limit) {
            return false;
        }
    }
    true
}

// Copies the live record's value over the front of a buffer of zeros: how long it is, 0 under an absent key.
fn load(table: &[u8], target: Target, value: &mut [u8]) -> usize
    requires sound { Sound (shape_of target) table.now target.found }
    requires cleared { (value.old ≡ replicate (length value.old) 0) × ((shape_of target).value_limit ≤ length value.old) }
    ensures { Holds (stored_value table.now target) (length value.old) value.new result }
{
    let Lookup::Live { slot, .. } = target.found else {
        return 0;
    };
    let stored = record::value(table::record_at(table, target.form, slot));
    slice::copy(value, 0, stored);
    stored.len()
}

// Writes a number into a field of a value of `len` bytes. `answer` is the number that the subcommand answers.
fn set_field(value: &mut [u8], len: usize, field: Field, z: i64, answer: i64) -> Done
    requires clean { Clean value.old len }
    requires typed { is_int_type (model_int field.int) ≡ true }
    requires within { end_bit (model_field field) ≤ 8 * length value.old }
    ensures { Leaves (stored (some answer) (set_field (model_field field) z (take len value.old))) (length value.old) value.new result }
{
    let int = field.int;
    field::write_bits(value, field, field::bits_of(int, z));
    let end = field.offset as usize + int.width as usize;
    Done {
        len: len.max((end - 1) / 8 + 1),
        wrote: true,
        answered: Some(answer),
    }
}

// Runs a subcommand on a value of `len` bytes.
fn run_sub(value: &mut [u8], len: usize, sub: Sub) -> Done
    requires clean { Clean value.old len }
    requires typed { Typed (model_sub sub) }
    requires within { ends_within (length value.old) (model_sub sub) ≡ true }
    ensures { Leaves (run_sub (model_sub sub) (take len value.old)) (length value.old) value.new result }
{
    let Sub {
        operation,
        field,
        number,
    } = sub;
    let int = field.int;
    let bits = field::read_bits(value, field);
    match operation {
        Operation::Get => Done {
            len,
            wrote: false,
            answered: Some(field::number_of(int, bits)),
        },
        Operation::Set => {
            let old = field::number_of(int, bits);
            set_field(value, len, field, number, old)
        }
        Operation::Incrby(mode) => {
            let Some(z) = field::increase(int, mode, bits, number) else {
                return Done {
                    len,
                    wrote: false,
                    answered: None,
                };
            };
            set_field(value, len, field, z, z)
        }
    }
}

// Writes an answer over a text.
fn put_answer(text: &mut [u8], at: usize, answered: Option<i64>) -> usize
    requires { at + length (scalar_bytes (result_scalar (to_model answered))) ≤ length text.old }
    ensures { Wrote at (scalar_bytes (result_scalar (to_model answered))) text.old text.new result }
{
    match answered {
        Some(z) => piece::put_integer(text, at, z),
        None => piece::put_nil(text, at),
    }
}

// Runs the subcommands on a value of `len` bytes, one after the other, and writes their answers over a text.
fn run(value: &mut [u8], len: usize, subs: Subs, text: &mut [u8]) -> Ran
    requires clean { Clean value.old len }
    requires typed { All Typed (model_subs subs) }
    requires within { all_end_within (length value.old) (model_subs subs) ≡ true }
    requires room { 23 * subs.count ≤ length text.old }
    ensures { LeavesAll (run_subs (model_subs subs) (take len value.old)) (length value.old) value.new text.old text.new result }
{
    let mut ran = Ran {
        len,
        wrote: false,
        end: 0,
    };
    for i in 0..subs.count {
        let done = run_sub(value, ran.len, sub_at(&subs, i));
        ran = Ran {
            len: done.len,
            wrote: ran.wrote | done.wrote,
            end: put_answer(text, ran.end, done.answered),
        };
    }
    ran
}

// Runs the subcommands on a copy of the stored value, in a buffer of zeros, and writes their answers over a text.
pub fn run_stored(
    table: &[u8],
    target: Target,
    subs: Subs,
    value: &mut [u8],
    text: &mut [u8],
) -> Ran
    requires sound { Sound (shape_of target) table.now target.found }
    requires cleared { (value.old ≡ replicate (length value.old) 0) × ((shape_of target).value_limit ≤ length value.old) × (length value.old ≤ 128) }
    requires typed { All Typed (model_subs subs) }
    requires within { all_end_within (length value.old) (model_subs subs) ≡ true }
    requires room { 23 * subs.count ≤ length text.old }
    ensures { LeavesAll (run_subs (model_subs subs) (stored_value table.now target)) (length value.old) value.new text.old text.new result }
{
    let len = load(table, target, value);
    run(value, len, subs, text)
}

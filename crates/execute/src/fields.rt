// BITFIELD: test 16, the run of its subcommands, and what it gives back.
ghost use Rattle.std.specs.Prelude.{◌≡◌, true, List, ℕ, ◌+◌, ◌<◌, ◌≤◌, length};
ghost use Rattle.model.specs.Resp.{Scalar, array, scalars_bytes};
ghost use Rattle.model.specs.Bitfield.{all_end_within};
ghost use Rattle.command.specs.Subcommand.{model_subs};
ghost use Rattle.live.specs.Under.{shape_of};
ghost use Rattle.execute.specs.Does.{SomeRoom, Ready, held, fields_in, Does, FieldsFit};
ghost use Rattle.write.specs.Finish.{StoredOk, Finishes};

use command::{Change, Expire, Presence, Subs, Terms};
use live::Target;
use outcome::Refusal;
use reply::Answer;

// Answers a command whose value was stored or refused, by an array of a few elements whose bytes are given.
fn finish(stored: Result<u64, Refusal>, count: usize, text: &[u8], reply: &mut [u8]) -> Answer
    requires some_room { SomeRoom reply.old × StoredOk stored }
    requires count_bound { (count < 10) × (4 + length text.now ≤ length reply.old) }
    ensures { (xs : List Scalar) → length xs ≡ count → text.now ≡ scalars_bytes xs → Finishes reply.old reply.new stored (λ (n : ℕ). array xs) result }
{
    match stored {
        Ok(_) => reply::elements(reply, count, text),
        Err(refusal) => reply::error(reply, refusal),
    }
}

// Runs the subcommands, whose fields fit, on a copy of the stored value. It is stored only if one of them wrote.
fn run(table: &mut [u8], target: Target, key: &[u8], subs: Subs, reply: &mut [u8]) -> Answer
    requires ready { Ready target key.now (held table.old reply.old) }
    requires fields_fit { FieldsFit subs × (all_end_within (shape_of target).value_limit (model_subs subs) ≡ true) }
    ensures { Does (shape_of target) (held table.old reply.old) (held table.new reply.new) (fields_in table.old target key.now subs) result }
{
    let mut value = [0u8; 128];
    // four answers of at most 23 bytes
    let mut text = [0u8; 92];
    let ran = bitfield::run_stored(table, target, subs, &mut value, &mut text);
    let len = ran.len;
    let end = ran.end;
    if !ran.wrote {
        return reply::elements(reply, subs.count, &text[..end]);
    }
    let terms = Terms {
        presence: Presence::Always,
        change: Change::Raise,
        expire: Expire::Keep,
    };
    let stored = put::store_value(table, target, key, &value[..len], terms, None);
    finish(stored, subs.count, &text[..end], reply)
}

// BITFIELD: tests where the fields end, and runs the subcommands.
pub fn bitfield(
    table: &mut [u8],
    target: Target,
    key: &[u8],
    subs: Subs,
    reply: &mut [u8],
) -> Answer
    requires ready { Ready target key.now (held table.old reply.old) }
    requires fields_fit { FieldsFit subs }
    ensures { Does (shape_of target) (held table.old reply.old) (held table.new reply.new) (fields_in table.old target key.now subs) result }
{
    if !bitfield::all_end_within(subs, record::limit(target.form)) {
        return reply::error(reply, Refusal::Length);
    }
    run(table, target, key, subs, reply)
}

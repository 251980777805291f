// The commands that write a value: what each gives back.
#![tactic(auto)]

ghost use Rattle.std.specs.Prelude.{◌≡◌, [], ◌<◌, ◌≤◌, length};
ghost use Rattle.model.specs.Number.{version_limit};
ghost use Rattle.model.specs.Execute.{total};
ghost use Rattle.model.proofs.Commands.{ChangeOk};
ghost use Rattle.command.specs.Command.{model_increment, model_change};
ghost use Rattle.command.specs.declared.Action.TheVariants as ActionOf;
ghost use Rattle.live.specs.Under.{Sound, shape_of};
ghost use Rattle.outcome.specs.Outcome.{checked};
ghost use Rattle.put.specs.Put.{value_in};
ghost use Rattle.reply.specs.Replied.{Replied};
ghost use Rattle.write.specs.Does.{SomeRoom, Ready, held, act_in, Does};
ghost use Rattle.write.specs.Finish.{reply_of, StoredOk, Finishes};

use command::{Change, Increment, Join, Presence, Set, Swap, Terms};
use live::{Admission, Lookup, Target};
use outcome::Refusal;
use reply::Answer;

// How a command answers once its value is stored. The flag says whether WITHVERSION is given.
// Kept: with a closure in its place, `finish` would have to ask of the closure what each reply promises.
#[derive(Clone, Copy)]
enum Success {
    // EXSET
    Set(bool),
    // EXINCRBY, with the number stored
    Count(bool, i64),
    // EXCAS
    Swap,
    // EXAPPEND and EXPREPEND
    Join,
}

// Writes the reply of a command whose value is stored with a version.
fn reply_success(reply: &mut [u8], success: Success, version: u64) -> Answer
    requires { SomeRoom reply.old × (version < version_limit) }
    ensures { Replied 0 (reply_of success version) reply.old reply.new result }
{
    match success {
        Success::Set(with_version) => reply::set(reply, with_version, version),
        Success::Count(with_version, z) => reply::count(reply, with_version, z, version),
        Success::Swap => reply::swap(reply, version),
        Success::Join => reply::number(reply, version),
    }
}

// Answers a command whose value was stored or refused.
fn finish(stored: Result<u64, Refusal>, success: Success, reply: &mut [u8]) -> Answer
    requires { SomeRoom reply.old × StoredOk stored }
    ensures { Finishes reply.old reply.new stored (reply_of success) result }
{
    match stored {
        Ok(version) => reply_success(reply, success, version),
        Err(refusal) => reply::error(reply, refusal),
    }
}

// EXSET: stores the value.
pub fn exset(
    table: &mut [u8],
    target: Target,
    key: &[u8],
    value: &[u8],
    set: Set,
    reply: &mut [u8],
) -> Answer
    requires ready { Ready target key.now (held table.old reply.old) }
    requires value_len_bound { (length value.now ≤ (shape_of target).value_limit) × ChangeOk (model_change set.terms.change) }
    ensures { Does (shape_of target) (held table.old reply.old) (held table.new reply.new) (act_in table.old target key.now value.now (ActionOf.Exset set)) result }
{
    let terms = set.terms;
    match live::admit(target.found, terms) {
        Admission::Nil => reply::nil(reply),
        Admission::Stale => reply::error(reply, Refusal::Stale),
        Admission::Granted => {
            let stored = put::store_value(table, target, key, value, terms, Some(set.flags));
            finish(stored, Success::Set(set.with_version), reply)
        }
    }
}

// What EXINCRBY comes to: the sum of the number stored, 0 under an absent key, and the one given.
fn total(table: &[u8], target: Target, increment: Increment) -> Result<i64, Refusal>
    requires { Sound (shape_of target) table.now target.found }
    ensures { checked (λ z. z) result ≡ total (model_increment increment) (value_in table.now target) }
{
    let Lookup::Live { slot, .. } = target.found else {
        return count::sum_absent(increment);
    };
    let text = record::value(table::record_at(table, target.form, slot));
    count::sum_text(increment, text)
}

// EXINCRBY: adds to the number stored.
pub fn exincrby(
    table: &mut [u8],
    target: Target,
    key: &[u8],
    increment: Increment,
    reply: &mut [u8],
) -> Answer
    requires ready { Ready target key.now (held table.old reply.old) }
    requires change_ok { ChangeOk (model_change increment.terms.change) }
    ensures { Does (shape_of target) (held table.old reply.old) (held table.new reply.new) (act_in table.old target key.now [] (ActionOf.Exincrby increment)) result }
{
    let terms = increment.terms;
    match live::admit(target.found, terms) {
        Admission::Nil => reply::nil(reply),
        Admission::Stale => reply::error(reply, Refusal::Stale),
        Admission::Granted => match total(table, target, increment) {
            Err(refusal) => reply::error(reply, refusal),
            Ok(z) => {
                let stored = put::store_number(table, target, key, z, terms);
                finish(stored, Success::Count(increment.with_version, z), reply)
            }
        },
    }
}

// EXCAS: stores the value if the live record has the version; another version is answered with the value and version stored.
pub fn excas(
    table: &mut [u8],
    target: Target,
    key: &[u8],
    value: &[u8],
    swap: Swap,
    reply: &mut [u8],
) -> Answer
    requires ready { Ready target key.now (held table.old reply.old) }
    requires value_len_bound { length value.now ≤ (shape_of target).value_limit }
    ensures { Does (shape_of target) (held table.old reply.old) (held table.new reply.new) (act_in table.old target key.now value.now (ActionOf.Excas swap)) result }
{
    let Lookup::Live { slot, attributes } = target.found else {
        return reply::minus_one(reply);
    };
    if swap.version != attributes.version {
        let old = record::value(table::record_at(table, target.form, slot));
        return reply::stale(reply, old, attributes.version);
    }
    let terms = Terms {
        presence: Presence::Always,
        change: Change::Raise,
        expire: swap.expire,
    };
    let stored = put::store_value(table, target, key, value, terms, None);
    finish(stored, Success::Swap, reply)
}

// EXAPPEND and EXPREPEND: joins the text to the value stored.
pub fn exjoin(
    table: &mut [u8],
    target: Target,
    key: &[u8],
    value: &[u8],
    join: Join,
    reply: &mut [u8],
) -> Answer
    requires ready { Ready target key.now (held table.old reply.old) }
    requires value_len_bound { (length value.now ≤ (shape_of target).value_limit) × ChangeOk (model_change join.terms.change) }
    ensures { Does (shape_of target) (held table.old reply.old) (held table.new reply.new) (act_in table.old target key.now value.now (ActionOf.Exjoin join)) result }
{
    let terms = join.terms;
    match live::admit(target.found, terms) {
        Admission::Nil => reply::nil(reply),
        Admission::Stale => reply::error(reply, Refusal::Stale),
        Admission::Granted => {
            let stored = put::join_value(table, target, key, value, join);
            finish(stored, Success::Join, reply)
        }
    }
}

// The commands that write no value: what each gives back.
#![tactic(auto)]

ghost use Rattle.std.specs.Prelude.{[]};
ghost use Rattle.command.specs.declared.Action.TheVariants as ActionOf;
ghost use Rattle.live.specs.Under.{Sound, shape_of};
ghost use Rattle.access.specs.Does.{Room, held, act_in, Does};

use command::Expire;
use live::{Lookup, Target};
use record::Attributes;
use reply::Answer;

// EXGET: the live record's value and version, and its flags where they are asked for.
pub fn exget(table: &[u8], target: Target, with_flags: bool, reply: &mut [u8]) -> Answer
    requires { Sound (shape_of target) table.now target.found × Room (shape_of target) reply.old }
    ensures { Does (shape_of target) (held table.now reply.old) (held table.now reply.new) (act_in table.now target [] [] (ActionOf.Exget with_flags)) result }
{
    let Lookup::Live { slot, attributes } = target.found else {
        return reply::nil(reply);
    };
    let value = record::value(table::record_at(table, target.form, slot));
    reply::get(
        reply,
        with_flags,
        value,
        attributes.version,
        attributes.flags,
    )
}

// EXSETVER: stores a version in the live record.
pub fn exsetver(table: &mut [u8], target: Target, version: u64, reply: &mut [u8]) -> Answer
    requires { Sound (shape_of target) table.old target.found × Room (shape_of target) reply.old }
    ensures { Does (shape_of target) (held table.old reply.old) (held table.new reply.new) (act_in table.old target [] [] (ActionOf.Exsetver version)) result }
{
    let Lookup::Live { slot, attributes } = target.found else {
        return reply::number(reply, 0);
    };
    let changed = Attributes {
        version,
        ..attributes
    };
    table::set_attributes(table, target.form, slot, changed);
    reply::number(reply, 1)
}

// EXCAD: removes the live record if it has the version.
pub fn excad(table: &mut [u8], target: Target, version: u64, reply: &mut [u8]) -> Answer
    requires { Sound (shape_of target) table.old target.found × Room (shape_of target) reply.old }
    ensures { Does (shape_of target) (held table.old reply.old) (held table.new reply.new) (act_in table.old target [] [] (ActionOf.Excad version)) result }
{
    let Lookup::Live { slot, attributes } = target.found else {
        return reply::minus_one(reply);
    };
    if version == attributes.version {
        table::clear(table, target.form, slot);
        return reply::number(reply, 1);
    }
    reply::number(reply, 0)
}

// EXGAE: answers with the live record's fields and sets its expiry.
pub fn exgae(table: &mut [u8], target: Target, expire: Expire, reply: &mut [u8]) -> Answer
    requires { Sound (shape_of target) table.old target.found × Room (shape_of target) reply.old }
    ensures { Does (shape_of target) (held table.old reply.old) (held table.new reply.new) (act_in table.old target [] [] (ActionOf.Exgae expire)) result }
{
    let Lookup::Live { slot, attributes } = target.found else {
        return reply::nil(reply);
    };
    let shown = exget(table, target, true, reply);
    let expiry = live::expiry_after(target.found, expire);
    let touched = Attributes {
        expiry,
        ..attributes
    };
    table::set_attributes(table, target.form, slot, touched);
    shown
}

// DEL: removes the live record.
pub fn del(table: &mut [u8], target: Target, reply: &mut [u8]) -> Answer
    requires { Sound (shape_of target) table.old target.found × Room (shape_of target) reply.old }
    ensures { Does (shape_of target) (held table.old reply.old) (held table.new reply.new) (act_in table.old target [] [] ActionOf.Del) result }
{
    let Lookup::Live { slot, .. } = target.found else {
        return reply::number(reply, 0);
    };
    table::clear(table, target.form, slot);
    reply::number(reply, 1)
}

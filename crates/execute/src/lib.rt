// What each command does to the table, once its key is looked up, and what it answers.
#![tactic(auto)]

mod fields;

ghost use Rattle.live.specs.Under.{shape_of};
ghost use Rattle.execute.specs.Does.{held, act_in, Does, Ready, ActionFits};

use command::Action;
pub use fields::bitfield;
use live::Target;
use reply::Answer;

// Carries an action out under a key, with a value where it has one, and writes the reply.
pub fn execute(
    table: &mut [u8],
    target: Target,
    key: &[u8],
    value: &[u8],
    action: Action,
    reply: &mut [u8],
) -> Answer
    requires ready { Ready target key.now (held table.old reply.old) }
    requires action_fits { ActionFits (shape_of target) value.now action }
    ensures { Does (shape_of target) (held table.old reply.old) (held table.new reply.new) (act_in table.old target key.now value.now action) result }
{
    match action {
        Action::Exset(set) => write::exset(table, target, key, value, set, reply),
        Action::Exget { with_flags } => access::exget(table, target, with_flags, reply),
        Action::Exsetver { version } => access::exsetver(table, target, version, reply),
        Action::Exincrby(increment) => write::exincrby(table, target, key, increment, reply),
        Action::Excas(swap) => write::excas(table, target, key, value, swap, reply),
        Action::Excad { version } => access::excad(table, target, version, reply),
        Action::Exjoin(join) => write::exjoin(table, target, key, value, join, reply),
        Action::Exgae { expire } => access::exgae(table, target, expire, reply),
        Action::Del => access::del(table, target, reply),
    }
}

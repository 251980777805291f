// A command after its parse, once its key is looked up.
ghost use Rattle.resp.specs.Held.{words_in};
ghost use Rattle.live.specs.Under.{shape_of};
ghost use Rattle.execute.specs.Does.{held, Does};
ghost use Rattle.store.specs.Runs.{CanRun, effect_in};

use command::Task;
use live::Target;
use reply::Answer;
use resp::Words;

// Does what a command of these words asks for, at its target. BITFIELD's subcommands are read first, tests 8 and 9.
pub fn carry_out(
    table: &mut [u8],
    target: Target,
    task: Task,
    words: &Words<'_, '_>,
    reply: &mut [u8],
) -> Answer
    requires can_run { CanRun target task (words_in words.now) (held table.old reply.old) }
    ensures { Does (shape_of target) (held table.old reply.old) (held table.new reply.new) (effect_in target task table.old (words_in words.now)) result }
{
    let key = words.word(1);
    match task {
        Task::Action(action) => {
            let value = words.word(2);
            execute::execute(table, target, key, value, action, reply)
        }
        Task::Bitfield => match subcommands::subcommands_in(words) {
            Err(refusal) => reply::error(reply, refusal),
            Ok(subs) => execute::bitfield(table, target, key, subs, reply),
        },
    }
}

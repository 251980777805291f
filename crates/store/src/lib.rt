// The store: one call on a borrowed table, from bytes to bytes.
#![tactic(auto)]

mod task;

ghost use Rattle.model.specs.Table.{form128};
ghost use Rattle.model.specs.Call.{call};
ghost use Rattle.store.specs.Called.{Called};

use entry::{NotReady, Query};
use live::Target;
use record::Form;
use reply::Answer;

// Applies one command to a table: document 01's number, the reply's length, the reply and the changed table.
pub fn call(table: &mut [u8], time: u64, command: &[u8], reply: &mut [u8]) -> Answer
    ensures { Called (call form128 table.old time command.now reply.old) result table.new reply.new }
{
    let room = reply.len();
    let query = Query { time, room };
    let mut places = [0u16; 32];
    match entry::prepare(table, query, command, &mut places) {
        Err(NotReady::Silent(refusal)) => Answer::silent(refusal),
        Err(NotReady::Told(refusal)) => reply::error(reply, refusal),
        Ok(ready) => {
            let form = Form::Of128;
            let found = ready.found;
            let target = Target { form, time, found };
            task::carry_out(table, target, ready.task, &ready.words, reply)
        }
    }
}

// Calls on a table that two parties share: each works on the caller's part as on a table of its own.
#![tactic(auto)]

ghost use Rattle.model.specs.Table.{form128};
ghost use Rattle.model.specs.Call.{call_in};
ghost use Rattle.model.specs.CurrentValue.{current_value_in};
ghost use Rattle.partition.specs.Parts.{model_view};
ghost use Rattle.current.specs.Shows.{Shows};
ghost use Rattle.store.specs.Called.{Called};

use partition::View;
use reply::Answer;

// Applies one command to the caller's part of a table: the number, the reply's length, the reply and the changed table.
pub fn call(table: &mut [u8], view: View, time: u64, command: &[u8], reply: &mut [u8]) -> Answer
    ensures { Called (call_in form128 (model_view view) table.old time command.now reply.old) result table.new reply.new }
{
    match partition::part_in(table, view) {
        Err(refusal) => Answer::silent(refusal),
        Ok(part) => store::call(&mut table[part.start..part.end], time, command, reply),
    }
}

// The value at the key of the caller's part after an EXGET or EXCAS, as a part of the command or of the table. Where none is shown, the table's
// first zero bytes. Kept: `shown` beside the part, since document 01 asks for that part too.
pub fn current_value<'a>(
    table: &'a [u8],
    view: View,
    time: u64,
    command: &'a [u8],
    shown: &mut bool,
) -> &'a [u8]
    ensures { Shows table.entry command.entry (current_value_in form128 (model_view view) table.now time command.now) result shown.new }
{
    let Ok(part) = partition::part_in(table, view) else {
        *shown = false;
        return &table[..0];
    };
    let own = &table[part.start..part.end];
    let value = current::current_value(own, time, command, shown);
    if *shown {
        return value;
    }
    &table[..0]
}

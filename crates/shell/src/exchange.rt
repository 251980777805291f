// One command on a table in memory, and whether the table's file is to be written after it.
ghost use Rattle.model.specs.Table.{form128};
ghost use Rattle.model.specs.Call.{call_in};
ghost use Rattle.partition.specs.Parts.{model_view};
ghost use Rattle.shell.specs.Exchange.{Exchanged};

use partition::View;
use reply::Answer;

// A command, the part of the table that it means, and its time.
#[derive(Clone, Copy)]
pub struct Request<'a> {
    pub view: View,
    pub time: u64,
    pub command: &'a [u8],
}

// The answer, and whether the table is to be written.
#[derive(Clone, Copy)]
pub struct Exchange {
    pub answer: Answer,
    pub write: bool,
}

// Calls the store on the part of the table that the caller means. `old` is the table as its file has it.
pub fn carry_out(request: Request<'_>, old: &[u8], table: &mut [u8], reply: &mut [u8]) -> Exchange
    ensures { Exchanged (call_in form128 (model_view request.entry.view) table.old request.entry.time request.entry.command.now reply.old) old.now result table.new reply.new }
{
    let Request {
        view,
        time,
        command,
    } = request;
    let answer = shared::call(table, view, time, command, reply);
    let write = status::is_to_write(answer.number, old, table);
    Exchange { answer, write }
}

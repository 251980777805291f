// What comes before a command is carried out: tests 1 to 4, its parse, and the search for its key.
#![tactic(auto)]

pub mod indexed;

ghost use Rattle.std.specs.Prelude.{◌≡◌, length};
ghost use Rattle.model.specs.Table.{form128};
ghost use Rattle.integrity.specs.Check.{faultless, Fresh};
ghost use Rattle.entry.specs.Gated.{Gates, Prepares};

use command::Task;
use live::Lookup;
use outcome::Refusal;
use record::Form;
use resp::Words;

// The longest table for which the smaller arrays of the index do: 16 records.
pub const SMALL: usize = 2048;

// What is asked of a table: the time of the call, and the length of the reply buffer.
#[derive(Clone, Copy)]
pub struct Query {
    pub time: u64,
    pub room: usize,
}

// A command that its parse does not refuse: what it asks for, what stands under its key, and its words.
#[derive(Clone, Copy)]
pub struct Ready<'s, 'p> {
    pub task: Task,
    pub found: Lookup,
    pub words: Words<'s, 'p>,
}

// Why a command is not ready: tests 1 to 4 refuse it, and it has no reply; or tests 5 to 11 do, of BITFIELD only 5 to 7.
#[derive(Clone, Copy)]
pub enum NotReady {
    Silent(Refusal),
    Told(Refusal),
}

// Tests the table, the time, the room for a reply and the command's bytes, in this order. `places` is to hold where the command's words stand, `heads`
// and `next` where the table's keys do. The form is named here, so that it is known where the tests are compiled.
pub fn gate<'s, 'p>(
    table: &[u8],
    query: Query,
    command: &'s [u8],
    places: &'p mut [u16; 32],
    heads: &mut [u8],
    next: &mut [u8],
) -> Result<Words<'s, 'p>, Refusal>
    requires places_len { length places.old ≡ 32 }
    requires fresh { Fresh form128 table.now heads.old next.old }
    ensures { Gates query table.now command.now heads.new next.new result }
{
    let form = Form::Of128;
    let least = record::room(form);
    let time = query.time;
    let room = query.room;
    if !integrity::check(table, form, heads, next) {
        return Err(Refusal::Damaged);
    }
    if record::TIME_LIMIT < time {
        return Err(Refusal::Time);
    }
    if room < least {
        return Err(Refusal::Room);
    }
    resp::split(command, places)
}

// Takes a command through the gate, parses it and looks its key up. The index of the table's keys is as large as the table asks, since it costs time
// to make.
pub fn prepare<'s, 'p>(
    table: &[u8],
    query: Query,
    command: &'s [u8],
    places: &'p mut [u16; 32],
) -> Result<Ready<'s, 'p>, NotReady>
    requires { length places.old ≡ 32 }
    ensures { Prepares query table.now command.now result }
{
    if table.len() <= SMALL {
        return indexed::prepare(table, query, command, places, &mut [0; 128], &mut [0; 16]);
    }
    indexed::prepare(table, query, command, places, &mut [0; 2048], &mut [0; 256])
}

// Whether a table passes the gate's first test, which is compiled in `indexed::prepare` alone: the time is one that the next test refuses.
pub fn passes(table: &[u8]) -> bool
    ensures { result ≡ faultless form128 table.now }
{
    let time = record::TIME_LIMIT + 1;
    let query = Query { time, room: 0 };
    let mut places = [0u16; 32];
    let Err(NotReady::Silent(refusal)) = prepare(table, query, b"", &mut places) else {
        return false;
    };
    refusal != Refusal::Damaged
}

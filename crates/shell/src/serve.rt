// One command on a table's file: under the table's lock it is applied to the file's bytes, and a changed table is written.
ghost use Rattle.std.specs.Prelude.{◌≤◌, IfOk};
ghost use Rattle.status.specs.Status.{Told};

use crate::caller::Caller;
use crate::exchange::{Exchange, Request, carry_out};
use crate::failure::{Failure, refused};
use crate::host::Host;
use crate::keeper::{Grant, ask, let_go};
use reply::Answer;
use status::{LOST, status_of, status_told};
use std::env::Env;
use std::io;
use std::rt::Files;
use tablefile::{NotLoaded, SPACE, load, replace};
use terminal::{Complaints, complain, complain_error, print, print_reply};

// The bytes of a new table's 16 empty records.
const NEW_SIZE: usize = 2048;

// Reads a table to the front of a buffer, and gives back its size; a missing file is one of 16 empty records.
// Kept: the size beside the buffer. A part of it handed back was tried, and its proof didn't close, since the part comes by two paths.
fn open_table(
    rt: &(impl Files + Complaints),
    path: &[u8],
    buffer: &mut [u8; SPACE],
) -> Result<usize, Failure<'static>>
    ensures { IfOk result (λ n. n ≤ 32896) }
{
    match load(rt, path, buffer) {
        Ok(table) => Ok(table.len()),
        Err(NotLoaded::Missing) => Ok(NEW_SIZE),
        Err(NotLoaded::Told) => Err(Failure::Told),
    }
}

// Applies a command to a table's file while no other run can change it.
fn serve_alone(
    rt: &impl Host,
    grant: Grant,
    path: &[u8],
    request: Request<'_>,
    reply: &mut [u8; 128],
) -> Result<Exchange, Failure<'static>> {
    let mut before = [0u8; SPACE];
    let size = open_table(rt, path, &mut before)?;
    let mut after = before;
    let table = &mut after[..size];
    let done = carry_out(request, &before[..size], table, reply);
    if done.write && !replace(rt, path, grant.rights, table) {
        return Err(Failure::Told);
    }
    Ok(done)
}

// Prints a reply as it is, or as redis-cli does, in one write.
// Kept: a flag, since a function passed for it would need a clause that it may be called at each step on the way here.
fn print_as(rt: &impl Print, raw: bool, reply: &[u8]) -> io::Result<()> {
    if raw {
        return print(rt, reply);
    }
    print_reply(rt, reply)
}

// Says that a reply could not be written, why, and whether the table did change.
fn tell_unwritten(rt: &impl Complaints, error: io::Error, changed: bool) {
    complain(
        rt,
        if changed {
            b"pietrunel: the table did change, but the reply cannot be written: "
        } else {
            b"pietrunel: nothing was changed, and the reply cannot be written: "
        },
    );
    complain_error(rt, b"standard output", error);
}

// Prints an answer's reply, or what its refusal stands for, and gives back the exit status.
fn show(
    rt: &(impl Print + Env + Complaints),
    done: Exchange,
    buffer: &[u8; 128],
    raw: bool,
    path: &[u8],
) -> u64
    ensures { Told done.write done.answer.number result }
{
    let Answer { number, len } = done.answer;
    if len == 0 {
        refused(number, path).tell(rt);
        return status_of(number);
    }
    let Some(reply) = buffer.get(..len) else {
        return status_of(number);
    };
    let written = print_as(rt, raw, reply);
    if let Err(error) = written {
        tell_unwritten(rt, error, done.write);
    }
    status_told(written.is_ok(), done.write, number)
}

// Applies a command to a table's file, prints the reply and gives back the exit status. The lock is let go before the reply is written, which
// may take as long as its reader likes. Where it cannot be let go no command may follow, so that it ends with this program.
pub fn serve<'a>(
    rt: &impl Host,
    caller: Caller<'a>,
    command: &[u8],
    raw: bool,
) -> Result<u64, Failure<'a>> {
    let grant = ask()?;
    let request = Request {
        view: caller.view,
        time: caller.time.unwrap_or(grant.time),
        command,
    };
    let mut reply = [0u8; 128];
    let tried = serve_alone(rt, grant, caller.path, request, &mut reply);
    let freed = let_go();
    let status = show(rt, tried?, &reply, raw, caller.path);
    Ok(if freed { status } else { LOST })
}

// The records of a table's file, a line each, and the table's check.
ghost use Rattle.partition.specs.Parts.{model_view};
ghost use Rattle.shell.specs.Views.{Listed};
ghost use Rattle.shell.specs.Statuses.{status_in};

use crate::caller::Caller;
use crate::failure::{Failure, refused, unloaded};
use crate::host::Host;
use crate::keeper::{ask, let_go};
use inspection::{list_records, tell_faults};
use outcome::Refusal;
use partition::{meets_at, slots_of};
use record::{Form, TIME_LIMIT};
use status::status_of;
use tablefile::{SPACE, load};
use terminal::Complaints;

// Lists the caller's part of a table, or only counts its records. What breaks the rules is told first.
fn list_table<'a>(
    rt: &(impl Print + Complaints),
    caller: Caller<'a>,
    table: &[u8],
    time: u64,
    shown: bool,
) -> Result<u64, Failure<'a>>
    ensures { Listed (model_view caller.entry.view) table.now (status_in result) }
{
    let Caller { path, view, .. } = caller;
    if TIME_LIMIT < time {
        return Err(refused(Refusal::Time.number(), path));
    }
    let refusal = partition::refusal(table, view);
    if let Some(Refusal::Boundary) = refusal {
        return Err(refused(Refusal::Boundary.number(), path));
    }
    if refusal.is_some() {
        tell_faults(rt, table, meets_at(view), path);
    }
    list_records(
        rt,
        table,
        slots_of(view, table::count(table, Form::Of128)),
        time,
        shown,
    )?;
    Ok(status_of(refusal.map_or(0, Refusal::number)))
}

// Lists a table's file, or checks it where its records are not to be shown. Without a keeper nothing is locked, and the time is 0 unless it is set.
pub fn list<'a>(
    rt: &impl Host,
    kept: bool,
    caller: Caller<'a>,
    shown: bool,
) -> Result<u64, Failure<'a>> {
    let granted = if kept { ask()?.time } else { 0 };
    let mut buffer = [0u8; SPACE];
    let loaded = load(rt, caller.path, &mut buffer);
    if kept {
        let_go();
    }
    let table = loaded.map_err(|error| unloaded(error, caller.path))?;
    list_table(rt, caller, table, caller.time.unwrap_or(granted), shown)
}

// Who calls, and when: the part of the table that a call means, and its time, by the options of the command line.
ghost use Rattle.std.specs.Prelude.{◌≡◌};
ghost use Rattle.partition.specs.Parts.{model_view};
ghost use Rattle.shell.specs.Views.{boundary_place, view_of};

use crate::failure::Failure;
use commandline::{Line, number_at};
use partition::{Party, View};
use std::env::Env;

// The table's file, the part of it that a call means, and its time where one is set; else it is that of the lock's grant.
#[derive(Clone, Copy)]
pub struct Caller<'a> {
    pub path: &'a [u8],
    pub view: View,
    pub time: Option<u64>,
}

// The place of the boundary among the arguments; none where no party is named.
fn boundary_place(line: Line) -> Option<usize>
    ensures { result ≡ boundary_place line.owner line.installer }
{
    line.owner.or(line.installer)
}

// The view of the party that is named, at a boundary; that of the whole table where none is.
fn view_at(line: Line, boundary: usize) -> View
    ensures { model_view result ≡ view_of line.owner line.installer boundary }
{
    match (line.owner, line.installer) {
        (Some(_), _) => View {
            party: Party::Owner,
            boundary,
        },
        (None, Some(_)) => View {
            party: Party::Installer,
            boundary,
        },
        (None, None) => View {
            party: Party::Whole,
            boundary: 0,
        },
    }
}

// The view of a command line's calls.
fn view_of(rt: &impl Env, line: Line) -> Result<View, Failure<'static>> {
    let Some(place) = boundary_place(line) else {
        return Ok(view_at(line, 0));
    };
    let Some(n) = number_at(rt, place) else {
        return Err(Failure::Because(match line.owner {
            Some(_) => "--owner needs a number of records",
            None => "--installer needs a number of records",
        }));
    };
    Ok(view_at(line, n as usize))
}

// The time that a command line sets.
fn time_of(rt: &impl Env, line: Line) -> Result<Option<u64>, Failure<'static>> {
    let Some(place) = line.time else {
        return Ok(None);
    };
    let Some(time) = number_at(rt, place) else {
        return Err(Failure::Because("--time needs a number of milliseconds"));
    };
    Ok(Some(time))
}

// Who calls by a command line, on the table's file at a path.
pub fn caller_of<'a>(
    rt: &impl Env,
    line: Line,
    path: &'a [u8],
) -> Result<Caller<'a>, Failure<'static>> {
    let view = view_of(rt, line)?;
    let time = time_of(rt, line)?;
    Ok(Caller { path, view, time })
}

// What differs between the tables of two files.
ghost use Rattle.std.specs.Prelude.{length};
ghost use Rattle.model.specs.Table.{form128};
ghost use Rattle.model.specs.Difference.{report};
ghost use Rattle.integrity.specs.Check.{faultless};
ghost use Rattle.status.specs.Status.{Compared};
ghost use Rattle.shell.specs.Statuses.{status_in};

use crate::failure::{Failure, unloaded};
use commandline::path_at;
use inspection::{print_difference, tell_faults};
use record::Form;
use status::status_between;
use std::env::Env;
use std::rt::Files;
use tablefile::{SPACE, load};
use terminal::Complaints;

// Reads a file, and says what is wrong with its table, if anything is.
fn read<'p, 'a>(
    rt: &(impl Files + Complaints),
    path: &'p [u8],
    buffer: &'a mut [u8; SPACE],
) -> Result<&'a [u8], Failure<'p>> {
    let table = load(rt, path, buffer).map_err(|error| unloaded(error, path))?;
    if !integrity::is_good(table, Form::Of128) {
        tell_faults(rt, table, 0, path);
    }
    Ok(table)
}

// Reads the file whose name is the argument at a place. One that cannot be read is told, and counts as a table with no byte.
fn read_at<'a>(
    rt: &(impl Env + Files + Complaints),
    place: usize,
    buffer: &'a mut [u8; SPACE],
) -> &'a [u8] {
    let mut name = [0u8; 4096];
    let read = match path_at(rt, Some(place), &mut name) {
        Ok(path) => read(rt, path, buffer),
        Err(_) => Err(Failure::Because("the file's name is too long")),
    };
    match read {
        Ok(table) => table,
        Err(failure) => {
            failure.tell(rt);
            &[]
        }
    }
}

// Prints what differs between two tables, and gives back the exit status.
fn compare(rt: &impl Print, before: &[u8], after: &[u8]) -> Result<u64, Failure<'static>>
    ensures { Compared (faultless form128 before.now) (faultless form128 after.now) (length (report before.now after.now)) (status_in result) }
{
    let first = integrity::is_good(before, Form::Of128);
    let second = integrity::is_good(after, Form::Of128);
    let printed = print_difference(rt, before, after);
    printed.written?;
    Ok(status_between(first, second, printed.len))
}

// Prints what differs between the tables of the files that the arguments at two places name.
pub fn compare_at(
    rt: &(impl Env + Files + Print + Complaints),
    first: usize,
    second: usize,
) -> Result<u64, Failure<'static>> {
    let mut before = [0u8; SPACE];
    let mut after = [0u8; SPACE];
    let before = read_at(rt, first, &mut before);
    let after = read_at(rt, second, &mut after);
    compare(rt, before, after)
}

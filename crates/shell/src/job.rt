// The jobs of the command line.
use crate::caller::caller_of;
use crate::comparison::compare_at;
use crate::creation::init;
use crate::failure::Failure;
use crate::host::Host;
use crate::listing::list;
use crate::serve::serve;
use crate::session::serve_input;
use commandline::{Line, ROOM, compose, path_at, records_at};
use std::env::FillError;

// The longest path: the new file's name has 21 bytes, and C takes 4,095.
const LONGEST: usize = 4074;

// Makes a new table.
fn run_init<'a>(rt: &impl Host, place: usize, path: &'a [u8]) -> Result<u64, Failure<'a>> {
    let Some(records) = records_at(rt, place) else {
        return Err(Failure::Because("--init needs a number of records from 1 to 256"));
    };
    init(rt, path, records)
}

// Does the job with the table at a path.
fn run_at<'a>(
    rt: &impl Host,
    line: Line,
    count: usize,
    path: &'a [u8],
) -> Result<u64, Failure<'a>> {
    if LONGEST < path.len() {
        return Err(Failure::Because("the file's name is too long"));
    }
    if let Some(place) = line.init {
        return run_init(rt, place, path);
    }
    let caller = caller_of(rt, line, path)?;
    let kept = line.keeper.is_some();
    if line.list.is_some() {
        return list(rt, kept, caller, true);
    }
    if line.check.is_some() {
        return list(rt, kept, caller, false);
    }
    if !kept {
        return Err(Failure::Because(
            "this program needs the keeper that the script pietrunel runs",
        ));
    }
    if count <= line.words {
        return serve_input(rt, caller);
    }
    let mut command = [0u8; ROOM];
    let command = compose(rt, line.words..count, &mut command);
    serve(rt, caller, command, false)
}

// Whether two jobs are asked for: of --init, --list, --check, --diff and a command.
fn is_mixed(line: Line, count: usize) -> bool {
    let other = line.diff.is_some() || line.words < count;
    let jobs = [
        line.init.is_some(),
        line.list.is_some(),
        line.check.is_some(),
        other,
    ];
    1 < jobs.iter().filter(|job| **job).count()
}

// Whether options go together.
fn agree(line: Line, count: usize) -> Result<(), Failure<'static>> {
    if is_mixed(line, count) {
        return Err(Failure::Because(
            "--init, --list, --check and --diff stand alone, without a command",
        ));
    }
    if line.owner.is_some() && line.installer.is_some() {
        return Err(Failure::Because("--owner and --installer exclude each other"));
    }
    let apart = line.init.is_some() || line.diff.is_some();
    if apart && line.owner.or(line.installer).is_some() {
        return Err(Failure::Because(
            "--owner and --installer are for commands, --list and --check",
        ));
    }
    Ok(())
}

// Compares the tables of the two files that the words name.
fn run_diff(rt: &impl Host, words: usize, count: usize) -> Result<u64, Failure<'static>> {
    if count.checked_sub(words) != Some(2) {
        return Err(Failure::Because("--diff needs the names of two files"));
    }
    compare_at(rt, words, words + 1)
}

// Why no path can be had.
fn unnamed(error: FillError) -> Failure<'static> {
    match error {
        FillError::TooLong => Failure::Because("the file's name is too long"),
        FillError::NotPresent => Failure::Because("-t needs the name of a file"),
    }
}

// Does the job of a command line, with room for a path.
fn run_with<'a>(
    rt: &impl Host,
    line: Line,
    count: usize,
    room: &'a mut [u8; 4096],
) -> Result<u64, Failure<'a>> {
    if let Some(place) = line.unknown {
        return Err(Failure::Word(place, "is no option; see --help"));
    }
    agree(line, count)?;
    if line.diff.is_some() {
        return run_diff(rt, line.words, count);
    }
    match path_at(rt, line.table, room) {
        Ok([]) => Err(unnamed(FillError::NotPresent)),
        Ok(path) => run_at(rt, line, count, path),
        Err(error) => Err(unnamed(error)),
    }
}

// Does the job of a command line, tells why where it cannot be done, and gives back the exit status.
pub fn run(rt: &impl Host, line: Line, count: usize) -> u64 {
    let mut room = [0u8; 4096];
    match run_with(rt, line, count, &mut room) {
        Ok(status) => status,
        Err(failure) => failure.tell(rt),
    }
}

// Why a run ends without what it was to do: one line for each.
ghost use Rattle.std.specs.Prelude.{◌≡◌};

use status::REFUSED;
use std::env::Env;
use std::io;
use tablefile::{NotLoaded, tell};
use terminal::{Complaints, complain, complain_text};

// What a run could not do.
#[derive(Clone, Copy)]
pub enum Failure<'a> {
    // told where it was met
    Told,
    // for this reason
    Because(&'static str),
    // the argument at a place is wrong
    Word(usize, &'static str),
    // this file is wrong
    File(&'a [u8], &'static str),
    // standard output cannot be written
    Output(io::Error),
}

// The bytes are no command.
pub const MALFORMED: Failure<'static> = Failure::Because(
    "not a command: it has 1 to 16 words in at most 512 bytes of RESP2",
);

impl From<io::Error> for Failure<'_> {
    fn from(error: io::Error) -> Self {
        Failure::Output(error)
    }
}

impl Failure<'_> {
    // Tells it, and gives back the exit status.
    pub fn tell(self, rt: &(impl Env + Complaints)) -> u64
        ensures { result ≡ 2 }
    {
        match self {
            Failure::Told => {}
            Failure::Because(why) => complain_text(rt, format_args!("pietrunel: {why}\n")),
            Failure::Word(place, why) => tell_word(rt, place, why),
            Failure::File(path, why) => {
                complain(rt, b"pietrunel: ");
                complain(rt, path);
                complain_text(rt, format_args!(": {why}\n"));
            }
            Failure::Output(error) => tell(rt, b"standard output", error),
        }
        REFUSED
    }
}

// Says what is wrong with the argument at a place.
fn tell_word(rt: &(impl Env + Complaints), place: usize, why: &str) {
    let mut word = [0u8; 4096];
    complain(rt, b"pietrunel: ");
    if let Ok(n) = rt.arg(place, &mut word) {
        complain(rt, &word[..n]);
    }
    complain_text(rt, format_args!(" {why}\n"));
}

// Why the table's file at a path was not loaded.
pub fn unloaded(error: NotLoaded, path: &[u8]) -> Failure<'_> {
    match error {
        NotLoaded::Missing => Failure::File(path, "no such file"),
        NotLoaded::Told => Failure::Told,
    }
}

// What a refusal that has no reply stands for, by its number.
pub fn refused(number: u32, path: &[u8]) -> Failure<'_> {
    match number {
        1 => Failure::File(path, "not a table: its length or a record breaks the rules"),
        2 => Failure::Because("the time is above 2^62"),
        4 => MALFORMED,
        18 => Failure::File(
            path,
            "the boundary is not from 1 to one less than the number of records",
        ),
        _ => Failure::Because("the reply has no room"),
    }
}

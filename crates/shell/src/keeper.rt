// The keeper, which the script runs beside this program. It is told a line on one descriptor and answers on another: `lock` waits for the
// table's lock and is answered by a grant, `free` lets go of the lock and is answered when it is free, and `status` tells the exit status.
use crate::failure::Failure;
use std::fmt;
use std::fmt::Write;
use tablefile::Rights;
use terminal::Decimal;

// The descriptor on which the keeper is told.
const TOLD: i32 = 3;

// The descriptor on which it answers.
const ANSWERS: i32 = 4;

// The bytes of an answer. A grant has four numbers, each at the start of 16 bytes and followed by blanks: the time in milliseconds, which was
// taken under the lock, and the mode, owner and group of the table's file.
const ANSWER: usize = 64;

// The keeper as a writer of formatted text.
#[derive(Drop)]
struct Keeper;

impl Write for Keeper {
    fn write_str(&mut self, part: &str) -> fmt::Result {
        io::write_all(TOLD, part.as_bytes());
        Ok(())
    }
}

// The time of a command, and the rights of the file that it may make.
#[derive(Clone, Copy)]
pub struct Grant {
    pub time: u64,
    pub rights: Rights,
}

// The number that begins at a place of an answer and ends before the next blank.
fn number_in(answer: &[u8], from: usize) -> Option<u64> {
    let word = answer.get(from..)?.split(|b| *b == b' ').next()?;
    number::read_version(word)
}

// The low 32 bits of a number.
fn low(n: u64) -> u32 {
    (n & 0xffff_ffff) as u32
}

// An owner or a group, unless C takes the number for none.
fn named(n: u64) -> Option<u32> {
    Some(low(n)).filter(|id| *id != u32::MAX)
}

// The grant of an answer.
fn grant_of(answer: &[u8]) -> Option<Grant> {
    let time = number_in(answer, 0)?;
    let rights = Rights {
        mode: low(number_in(answer, 16)?),
        owner: named(number_in(answer, 32)?),
        group: named(number_in(answer, 48)?),
    };
    Some(Grant { time, rights })
}

// Waits for the table's lock. An answer that is no grant was told by the keeper.
pub fn ask() -> Result<Grant, Failure<'static>> {
    io::write_all(TOLD, b"lock\n");
    let mut answer = [0u8; ANSWER];
    if io::read_full(ANSWERS, &mut answer) < ANSWER {
        return Err(Failure::Because("the keeper of the table's lock has ended"));
    }
    grant_of(&answer).ok_or(Failure::Told)
}

// Lets go of the table's lock, and waits until it is free, so that whoever has seen the reply finds it so. Gives back whether it is: where the
// keeper has ended, the lock lasts as long as this program.
pub fn let_go() -> bool {
    io::write_all(TOLD, b"free\n");
    let mut answer = [0u8; ANSWER];
    io::read_full(ANSWERS, &mut answer) == ANSWER
}

// Tells the exit status.
pub fn tell_status(status: u64) {
    let _ = writeln!(Keeper, "status {}", Decimal(status));
}

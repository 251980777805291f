// One command sent to the store, and printed with its reply.
use crate::compose::{ROOM, encode};
use reply::Answer;
use std::io;
use terminal::{Decimal, print, print_reply};

// Sends a line to the store at a time, prints the line and the reply, and gives back the answer.
pub fn send(rt: &impl Print, table: &mut [u8], time: u64, line: &[u8]) -> io::Result<Answer> {
    print(rt, b"127.0.0.1:6379> ")?;
    print(rt, line)?;
    print(rt, b"\n")?;
    let mut room = [0u8; ROOM];
    let command = encode(line, &mut room);
    let mut reply = [0u8; 128];
    let answer = store::call(table, time, command, &mut reply);
    match reply.get(..answer.len) {
        Some(text) => print_reply(rt, text)?,
        None => print(rt, b"reply longer than its buffer\n")?,
    }
    Ok(answer)
}

// Prints the number of an answer on a line of its own.
pub fn print_answer_number(rt: &impl Print, answer: Answer) -> io::Result<()> {
    println!(rt; "number {}", Decimal(answer.number as u64))
}

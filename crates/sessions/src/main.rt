// The bench sheet of document 01, calls that try document 02's rules of NONEGATIVE, of BITFIELD and of numbers, and the sessions of documents
// 000, 001 and 002, run against the store and printed as the documents print them. The file stdin has the headings and commands; where
// document 002 is wrong, a heading says what stands in for it. The file stdout has the replies that the documents print or ask for; the lines
// after a call of document 01 or 02, `version N`, `number N`, `table as before` and `128 zeros`, say in one form what document 01's columns
// and "Also" lines say.
#![tactic(auto)]

mod change;
mod compose;
mod heading;
mod play;
mod session;

use std::io;
use std::io::Read;

// The room for a script.
const ROOM: usize = 4096;

// Reads standard input to its end, or until the buffer is full, and gives back what came.
// Kept: a loop of reads, since std's `read_to_end` takes a `Vec`, which could fail.
fn read_script<'a>(rt: &impl Input, buffer: &'a mut [u8; ROOM]) -> io::Result<&'a [u8]> {
    let mut input = rt.reader();
    let mut done = 0;
    while done < buffer.len() {
        let got = input.read(&mut buffer[done..])?;
        if got == 0 {
            break;
        }
        done += got;
    }
    Ok(&buffer[..done])
}

fn main(rt: HostRuntime) -> io::Result<()> {
    let mut buffer = [0u8; ROOM];
    let script = read_script(&rt, &mut buffer)?;
    if script.len() == ROOM {
        return terminal::print(&rt, b"the script is longer than its buffer\n");
    }
    play::play(&rt, script)
}

// The commands on standard input, one after the other: each is applied and answered as soon as it is whole. The lock is asked for when a command
// is whole and not before, so that a client that sends nothing holds up nobody.
use crate::caller::Caller;
use crate::failure::{Failure, MALFORMED};
use crate::host::Host;
use crate::serve::serve;
use assembler::{Assembled, SIZE, assemble, command};
use status::{DONE, is_open_after, status_after};
use std::io::Read;
use tablefile::tell;
use terminal::Complaints;

// The most bytes of a read.
const PIECE: usize = 4096;

// Where a session stands: the first `held` bytes of `bytes` are a command's, and the exit status is that of the commands so far.
#[derive(Drop)]
struct Session<'a> {
    caller: Caller<'a>,
    bytes: [u8; SIZE],
    held: usize,
    status: u64,
}

impl<'a> Session<'a> {
    // Takes a piece up to the end of its first command, answers that, and gives back what is left of the piece.
    fn take<'p>(&mut self, rt: &impl Host, piece: &'p [u8]) -> Result<&'p [u8], Failure<'a>> {
        match assemble(&mut self.bytes, self.held, piece) {
            Assembled::More => {
                self.held += piece.len();
                Ok(&[])
            }
            Assembled::Whole(n) => {
                let command = command(&self.bytes, self.held, piece, n);
                let status = serve(rt, self.caller, command, true)?;
                self.status = status_after(self.status, status);
                self.held = 0;
                Ok(&piece[n..])
            }
            Assembled::Refused(_) => Err(MALFORMED),
        }
    }

    // Takes a piece whole, unless a command of it ends the session. Each turn takes a byte or more.
    fn take_all(&mut self, rt: &impl Host, piece: &[u8]) -> Result<(), Failure<'a>> {
        let mut rest = piece;
        for _ in 0..piece.len() {
            if rest.is_empty() || !is_open_after(self.status) {
                break;
            }
            rest = self.take(rt, rest)?;
        }
        Ok(())
    }

    // The exit status at the end of the input: a command that is not whole is malformed.
    fn finish(&self) -> Result<u64, Failure<'static>> {
        if self.held == 0 {
            Ok(self.status)
        } else {
            Err(MALFORMED)
        }
    }
}

// Reads what has come, and waits where nothing has: so no command waits for a later one. No bytes are the end of the input.
fn read<'b>(
    rt: &(impl Input + Complaints),
    buffer: &'b mut [u8; PIECE],
) -> Result<&'b [u8], Failure<'static>> {
    match rt.reader().read(buffer) {
        Ok(n) => Ok(&buffer[..n]),
        Err(error) => {
            tell(rt, b"standard input", error);
            Err(Failure::Told)
        }
    }
}

// Applies the commands on standard input to a table's file, and gives back the exit status. Nothing says that the input ends, and a proved loop
// has to: so the reads are counted, up to a number that no run reaches.
pub fn serve_input<'a>(rt: &impl Host, caller: Caller<'a>) -> Result<u64, Failure<'a>> {
    let mut buffer = [0u8; PIECE];
    let mut session = Session {
        caller,
        bytes: [0; SIZE],
        held: 0,
        status: DONE,
    };
    for _ in 0..u64::MAX {
        let piece = read(rt, &mut buffer)?;
        if piece.is_empty() {
            return session.finish();
        }
        session.take_all(rt, piece)?;
        if !is_open_after(session.status) {
            break;
        }
    }
    Ok(session.status)
}

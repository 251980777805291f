// A command line as a RESP2 array of bulk strings. What passes the room is left out, and such a command is refused.
// Kept: a buffer, since a command on the heap could fail.
use std::io;
use std::io::Write;
use terminal::Decimal;

// The room for a command.
pub const ROOM: usize = 512;

// Adds a line of RESP2 that is a count, `*3` or `$5`.
fn put_count(out: &mut impl Write, kind: char, n: usize) -> io::Result<()> {
    write!(out, "{kind}{}\r\n", Decimal(n as u64))
}

// Adds a word as a bulk string. The word `""` stands for the empty text, as it does in redis-cli.
fn put_word(out: &mut impl Write, word: &[u8]) -> io::Result<()> {
    let text = if let b"\"\"" = word { b"" } else { word };
    put_count(out, '$', text.len())?;
    out.write_all(text)?;
    out.write_all(b"\r\n")
}

// Adds the command that a line of words with single spaces between them stands for.
fn put_line(out: &mut impl Write, line: &[u8]) -> io::Result<()> {
    put_count(out, '*', line.split(|b| *b == b' ').count())?;
    for word in line.split(|b| *b == b' ') {
        put_word(out, word)?;
    }
    Ok(())
}

// Puts the command that a line stands for at the start of a buffer, and gives it back, or as much of it as has room.
pub fn encode<'a>(line: &[u8], buffer: &'a mut [u8; ROOM]) -> &'a [u8] {
    let mut rest = &mut buffer[..];
    let _ = put_line(&mut rest, line);
    let n = ROOM.saturating_sub(rest.len());
    buffer.get(..n).unwrap_or(&[])
}

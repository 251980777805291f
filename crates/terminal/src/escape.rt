// Bytes between quotes, as redis-cli writes them: what does not print is escaped.
ghost use Rattle.std.specs.Prelude.{◌≡◌, ◌+◌, ◌*◌, ◌<◌, ◌≤◌, Some, [], ◌∷◌, ◌++◌, length, take};
ghost use Rattle.std.specs.Fmt.{WritesOnOk};
ghost use Rattle.slice.specs.Wrote.{Wrote};
ghost use Rattle.terminal.specs.Escape.{prints, hex_digit, plain, escaped, escaped_all};

use std::{fmt, str};

// The most bytes that are escaped at once, and the room that they take.
const PIECE: usize = 64;

const ROOM: usize = 256;

// The ASCII bytes from the blank to the tilde stand for themselves.
fn prints(b: u8) -> bool
    ensures { result ≡ prints b }
{
    32 <= b && b <= 126
}

// A hexadecimal digit.
fn hex_digit(d: u8) -> u8
    requires { d < 16 }
    ensures { result ≡ hex_digit d }
{
    if d < 10 { b'0' + d } else { b'a' - 10 + d }
}

// The text of a byte that has no letter of its own: the first bytes of an array.
fn plain(b: u8) -> ([u8; 4], usize)
    ensures text { take result.1 result.0 ≡ plain b }
    ensures within { result.1 ≤ 4 }
{
    if prints(b) {
        return ([b, 0, 0, 0], 1);
    }
    ([b'\\', b'x', hex_digit(b / 16), hex_digit(b % 16)], 4)
}

// The text of a byte as it stands between quotes: the first bytes of an array.
// Kept: an array with a count, since a text on the heap could fail.
#[tactic(auto, unfolding(crate::specs::Escape::escaped, crate::specs::Escape::letter))]
fn escaped(b: u8) -> ([u8; 4], usize)
    ensures text { take result.1 result.0 ≡ escaped b }
    ensures within { result.1 ≤ 4 }
{
    match b {
        b'"' => ([b'\\', b'"', 0, 0], 2),
        b'\\' => ([b'\\', b'\\', 0, 0], 2),
        b'\n' => ([b'\\', b'n', 0, 0], 2),
        b'\r' => ([b'\\', b'r', 0, 0], 2),
        b'\t' => ([b'\\', b't', 0, 0], 2),
        7 => ([b'\\', b'a', 0, 0], 2),
        8 => ([b'\\', b'b', 0, 0], 2),
        _ => plain(b),
    }
}

// Writes a byte as it stands between quotes, and gives back the place after it.
fn put_escaped(out: &mut [u8], at: usize, b: u8) -> usize
    requires { at + 4 ≤ length out.old }
    ensures wrote { Wrote at (escaped b) out.old out.new result }
    ensures few { result ≤ at + 4 }
{
    let (bytes, n) = escaped(b);
    slice::copy(out, at, &bytes[..n]);
    at + n
}

// Writes a text as it stands between quotes at the start of a buffer, and gives back its length.
pub fn escape(text: &[u8], out: &mut [u8]) -> usize
    requires { 4 * length text.now ≤ length out.old }
    ensures { Wrote 0 (escaped_all text.now) out.old out.new result }
{
    let mut at = 0;
    for b in text {
        at = put_escaped(out, at, *b);
    }
    at
}

// Writes a piece of a text as it stands between quotes.
fn write_piece<W: fmt::Write>(f: &mut fmt::Formatter<W>, piece: &[u8]) -> fmt::Result
    requires { length piece.now ≤ 64 }
    ensures { WritesOnOk W.write_str_gives f.old result (escaped_all piece.now) f.new }
{
    let mut room = [0u8; ROOM];
    let n = escape(piece, &mut room);
    let Ok(text) = str::from_utf8(&room[..n]) else {
        unreachable!()
    };
    f.write_str(text)
}

// Bytes in quotes.
#[derive(Clone, Copy)]
pub struct Quoted<'a>(pub &'a [u8]);

impl fmt::Display for Quoted<'_> {
    ghost output = { λ q. Some (34 ∷ escaped_all q.0.now ++ (34 ∷ [])) };

    fn fmt<W: fmt::Write>(&self, f: &mut fmt::Formatter<W>) -> fmt::Result {
        let text = self.0;
        f.write_str("\"")?;
        let mut at = 0;
        while at < text.len() {
            let end = text.len().min(at + PIECE);
            write_piece(f, &text[at..end])?;
            at = end;
        }
        f.write_str("\"")
    }
}

// The pieces of a reply in RESP2. Each is written over a part of a borrowed buffer and gives back the place after it.
#![tactic(auto)]

ghost use Rattle.std.specs.Prelude.{◌∷◌, ◌++◌, ◌+◌, ◌≤◌, length};
ghost use Rattle.model.specs.Bytes.{crlf};
ghost use Rattle.model.specs.Resp.{array_mark, line, scalar_bytes, simple, error, integer, bulk, nil};
ghost use Rattle.slice.specs.Wrote.{Wrote};

// Writes CR LF.
fn put_line_end(buf: &mut [u8], at: usize) -> usize
    requires { at + length crlf ≤ length buf.old }
    ensures { Wrote at crlf buf.old buf.new result }
{
    buf[at] = 13;
    buf[at + 1] = 10;
    at + 2
}

// Writes a mark, a text and CR LF.
fn put_text(buf: &mut [u8], at: usize, mark: u8, s: &[u8]) -> usize
    requires { at + length (mark ∷ (s.now ++ crlf)) ≤ length buf.old }
    ensures { Wrote at (mark ∷ (s.now ++ crlf)) buf.old buf.new result }
{
    buf[at] = mark;
    let start = at + 1;
    slice::copy(buf, start, s);
    put_line_end(buf, start + s.len())
}

// Writes a line with a mark and a natural number.
fn put_line(buf: &mut [u8], at: usize, mark: u8, n: u64) -> usize
    requires { at + length (line mark n) ≤ length buf.old }
    ensures { Wrote at (line mark n) buf.old buf.new result }
{
    buf[at] = mark;
    let end = number::write_natural(buf, at + 1, n);
    put_line_end(buf, end)
}

// Writes a simple string.
pub fn put_simple(buf: &mut [u8], at: usize, s: &[u8]) -> usize
    requires { at + length (scalar_bytes (simple s.now)) ≤ length buf.old }
    ensures { Wrote at (scalar_bytes (simple s.now)) buf.old buf.new result }
{
    put_text(buf, at, b'+', s)
}

// Writes an error.
pub fn put_error(buf: &mut [u8], at: usize, s: &[u8]) -> usize
    requires { at + length (scalar_bytes (error s.now)) ≤ length buf.old }
    ensures { Wrote at (scalar_bytes (error s.now)) buf.old buf.new result }
{
    put_text(buf, at, b'-', s)
}

// Writes nil.
pub fn put_nil(buf: &mut [u8], at: usize) -> usize
    requires { at + length (scalar_bytes nil) ≤ length buf.old }
    ensures { Wrote at (scalar_bytes nil) buf.old buf.new result }
{
    slice::copy(buf, at, b"$-1\r\n");
    at + 5
}

// Writes an integer.
pub fn put_integer(buf: &mut [u8], at: usize, z: i64) -> usize
    requires { at + length (scalar_bytes (integer z)) ≤ length buf.old }
    ensures { Wrote at (scalar_bytes (integer z)) buf.old buf.new result }
{
    buf[at] = b':';
    let end = number::write_signed(buf, at + 1, z);
    put_line_end(buf, end)
}

// Writes a bulk string: its length, its bytes and CR LF.
pub fn put_bulk(buf: &mut [u8], at: usize, s: &[u8]) -> usize
    requires { at + length (scalar_bytes (bulk s.now)) ≤ length buf.old }
    ensures { Wrote at (scalar_bytes (bulk s.now)) buf.old buf.new result }
{
    let start = put_line(buf, at, b'$', s.len() as u64);
    slice::copy(buf, start, s);
    put_line_end(buf, start + s.len())
}

// Writes the line that begins an array of `n` elements.
pub fn put_array(buf: &mut [u8], at: usize, n: usize) -> usize
    requires { at + length (line array_mark n) ≤ length buf.old }
    ensures { Wrote at (line array_mark n) buf.old buf.new result }
{
    put_line(buf, at, b'*', n as u64)
}

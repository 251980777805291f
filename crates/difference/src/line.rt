// One line: a mark, the key in hex, the fields that differ. Each piece is written over a part of a borrowed buffer and gives back the place after it.
ghost use Rattle.std.specs.Prelude.{◌≡◌, cond, [], ◌+◌, ◌≤◌, ◌<◌, length};
ghost use Rattle.model.specs.Table.{fields};
ghost use Rattle.model.specs.Difference.{hex_digit, hex, fields_text, lines_bytes};
ghost use Rattle.record.specs.Record.{InUse};
ghost use Rattle.slice.specs.Wrote.{Wrote};
ghost use Rattle.difference.specs.Lines.{fields_of, line_bytes, change_lines};

use crate::fields::{Fields, fields_apart, is_none};

// The digit of a number below 16.
// Kept: std's `char::from_digit` gives a char in an Option, of which the byte would have to be taken.
fn hex_digit(d: u8) -> u8
    requires { d < 16 }
    ensures { result ≡ hex_digit d }
{
    if d < 10 {
        return 48 + d;
    }
    87 + d
}

// Writes bytes as two digits each.
fn put_hex(out: &mut [u8], at: usize, s: &[u8]) -> usize
    requires { at + length (hex s.now) ≤ length out.old }
    ensures { Wrote at (hex s.now) out.old out.new result }
{
    let mut place = at;
    for byte in s {
        out[place] = hex_digit(byte / 16);
        out[place + 1] = hex_digit(byte % 16);
        place += 2;
    }
    place
}

// Writes a text, if it is wanted.
fn put_if(out: &mut [u8], at: usize, wanted: bool, s: &[u8]) -> usize
    requires { at + length (cond wanted s.now []) ≤ length out.old }
    ensures { Wrote at (cond wanted s.now []) out.old out.new result }
{
    if wanted {
        slice::copy(out, at, s);
        return at + s.len();
    }
    at
}

// Writes the names of fields, a blank before each.
fn put_fields(out: &mut [u8], at: usize, d: Fields) -> usize
    requires { at + length (fields_text (fields_of d)) ≤ length out.old }
    ensures { Wrote at (fields_text (fields_of d)) out.old out.new result }
{
    let value = put_if(out, at, d.value, b" value");
    let version = put_if(out, value, d.version, b" version");
    let flags = put_if(out, version, d.flags, b" flags");
    put_if(out, flags, d.expiry, b" expiry")
}

// Writes a line.
pub fn put_line(out: &mut [u8], at: usize, mark: u8, key: &[u8], d: Fields) -> usize
    requires { at + length (line_bytes mark key.now (fields_of d)) ≤ length out.old }
    ensures { Wrote at (line_bytes mark key.now (fields_of d)) out.old out.new result }
{
    out[at] = mark;
    out[at + 1] = b' ';
    let names = put_hex(out, at + 2, key);
    let end = put_fields(out, names, d);
    out[end] = b'\n';
    end + 1
}

// Writes the line of a key that has a record in both tables, if a field differs.
pub fn put_change(out: &mut [u8], at: usize, r: &[u8], q: &[u8]) -> usize
    requires in_use { InUse r.now × InUse q.now }
    requires q_in_bounds { at + length (lines_bytes (change_lines (fields r.now) (fields q.now))) ≤ length out.old }
    ensures { Wrote at (lines_bytes (change_lines (fields r.now) (fields q.now))) out.old out.new result }
{
    let d = fields_apart(r, q);
    if is_none(d) {
        return at;
    }
    put_line(out, at, b'~', record::key(r), d)
}

// Whole replies. Each is written from the start of a borrowed buffer, which keeps its bytes behind the reply, and the answer is given back.
ghost use Rattle.std.specs.Prelude.{◌≡◌, List, ◌++◌, ◌+◌, ◌≤◌, ◌<◌, length};
ghost use Rattle.model.specs.Bytes.{text};
ghost use Rattle.model.specs.Number.{version_limit};
ghost use Rattle.model.specs.Resp.{Scalar, scalar_bytes, scalars_bytes, simple, bulk, nil, one, array};
ghost use Rattle.model.specs.Execute.{number, minus_one, set_reply, get_reply, count_reply, swap_reply, stale_reply};
ghost use Rattle.slice.specs.Wrote.{Wrote};
ghost use Rattle.reply.specs.Replied.{FitsIn, Replied, shown};

use crate::Answer;
use piece::{put_array, put_bulk, put_integer, put_nil, put_simple};

// Writes a natural number as an integer.
fn put_number(buf: &mut [u8], at: usize, n: u64) -> usize
    requires { (at + length (scalar_bytes (number n)) ≤ length buf.old) × (n < version_limit) }
    ensures { Wrote at (scalar_bytes (number n)) buf.old buf.new result }
{
    put_integer(buf, at, n as i64)
}

// Writes a value and a version, two elements of an array.
fn put_value(buf: &mut [u8], at: usize, value: &[u8], version: u64) -> usize
    requires { (at + length (scalar_bytes (bulk value.now) ++ scalar_bytes (number version)) ≤ length buf.old) × (version < version_limit) }
    ensures { Wrote at (scalar_bytes (bulk value.now) ++ scalar_bytes (number version)) buf.old buf.new result }
{
    let next = put_bulk(buf, at, value);
    put_number(buf, next, version)
}

// Answers nil.
pub fn nil(reply: &mut [u8]) -> Answer
    requires { FitsIn (one nil) reply.old }
    ensures { Replied 0 (one nil) reply.old reply.new result }
{
    let len = put_nil(reply, 0);
    Answer { number: 0, len }
}

// Answers a natural number.
pub fn number(reply: &mut [u8], n: u64) -> Answer
    requires { (FitsIn (one (number n)) reply.old) × (n < version_limit) }
    ensures { Replied 0 (one (number n)) reply.old reply.new result }
{
    let len = put_number(reply, 0, n);
    Answer { number: 0, len }
}

// Answers -1, for a key that is absent.
pub fn minus_one(reply: &mut [u8]) -> Answer
    requires { FitsIn minus_one reply.old }
    ensures { Replied 0 minus_one reply.old reply.new result }
{
    let len = put_integer(reply, 0, -1);
    Answer { number: 0, len }
}

// Answers an EXSET: OK, or the version.
pub fn set(reply: &mut [u8], with_version: bool, version: u64) -> Answer
    requires { (FitsIn (set_reply with_version version) reply.old) × (version < version_limit) }
    ensures { Replied 0 (set_reply with_version version) reply.old reply.new result }
{
    if with_version {
        return number(reply, version);
    }
    let len = put_simple(reply, 0, b"OK");
    Answer { number: 0, len }
}

// Answers an EXGET or EXGAE: value and version, and the flags where they are asked for.
pub fn get(reply: &mut [u8], with_flags: bool, value: &[u8], version: u64, flags: u32) -> Answer
    requires { (FitsIn (get_reply with_flags (shown value.now version flags)) reply.old) × (version < version_limit) }
    ensures { Replied 0 (get_reply with_flags (shown value.now version flags)) reply.old reply.new result }
{
    if with_flags {
        let value_at = put_array(reply, 0, 3);
        let flags_at = put_value(reply, value_at, value, version);
        let len = put_number(reply, flags_at, flags as u64);
        return Answer { number: 0, len };
    }
    let value_at = put_array(reply, 0, 2);
    let len = put_value(reply, value_at, value, version);
    Answer { number: 0, len }
}

// Answers an EXINCRBY: the number, or number and version.
pub fn count(reply: &mut [u8], with_version: bool, z: i64, version: u64) -> Answer
    requires { (FitsIn (count_reply with_version z version) reply.old) × (version < version_limit) }
    ensures { Replied 0 (count_reply with_version z version) reply.old reply.new result }
{
    if with_version {
        let count_at = put_array(reply, 0, 2);
        let version_at = put_integer(reply, count_at, z);
        let len = put_number(reply, version_at, version);
        return Answer { number: 0, len };
    }
    let len = put_integer(reply, 0, z);
    Answer { number: 0, len }
}

// Answers an EXCAS that stored its value: OK, an empty string and the new version.
pub fn swap(reply: &mut [u8], version: u64) -> Answer
    requires { (FitsIn (swap_reply version) reply.old) × (version < version_limit) }
    ensures { Replied 0 (swap_reply version) reply.old reply.new result }
{
    let ok_at = put_array(reply, 0, 3);
    let empty_at = put_simple(reply, ok_at, b"OK");
    let version_at = put_simple(reply, empty_at, b"");
    let len = put_number(reply, version_at, version);
    Answer { number: 0, len }
}

// Writes that a version is stale: a simple string, although it reads like an error.
fn put_stale(buf: &mut [u8], at: usize) -> usize
    requires { at + length (scalar_bytes (simple (text "ERR update version is stale"))) ≤ length buf.old }
    ensures { Wrote at (scalar_bytes (simple (text "ERR update version is stale"))) buf.old buf.new result }
{
    put_simple(buf, at, b"ERR update version is stale")
}

// Answers an EXCAS on another version: that it is stale, the stored value and the stored version.
pub fn stale(reply: &mut [u8], value: &[u8], version: u64) -> Answer
    requires { (FitsIn (stale_reply (shown value.now version 0)) reply.old) × (version < version_limit) }
    ensures { Replied 0 (stale_reply (shown value.now version 0)) reply.old reply.new result }
{
    let stale_at = put_array(reply, 0, 3);
    let value_at = put_stale(reply, stale_at);
    let len = put_value(reply, value_at, value, version);
    Answer { number: 0, len }
}

// Answers an array of a few elements whose bytes are given.
pub fn elements(reply: &mut [u8], count: usize, text: &[u8]) -> Answer
    requires { (count < 10) × (4 + length text.now ≤ length reply.old) }
    ensures { (xs : List Scalar) → length xs ≡ count → text.now ≡ scalars_bytes xs → Replied 0 (array xs) reply.old reply.new result }
{
    let at = put_array(reply, 0, count);
    slice::copy(reply, at, text);
    Answer {
        number: 0,
        len: at + text.len(),
    }
}

// A RESP2 reply, printed as redis-cli prints it, in one write where its text has room on a page, as that of each reply of the store has.
ghost use Rattle.std.specs.Prelude.{◌≡◌, length, IsOk};

use crate::escape::Quoted;
use crate::numeral::Decimal;
use crate::page::Paged;
use std::io;
use std::io::Write;

// An item of a reply that is no array.
#[derive(Clone, Copy)]
enum Item<'a> {
    Simple(&'a [u8]),
    Error(&'a [u8]),
    Integer(&'a [u8]),
    Bulk(&'a [u8]),
    Nil,
}

// The line that a text begins with, and what follows its CR LF.
fn split_line(s: &[u8]) -> Option<(&[u8], &[u8])> {
    let end = s.iter().position(|b| *b == b'\r')?;
    let rest = s[end..].strip_prefix(b"\r\n")?;
    Some((&s[..end], rest))
}

// The bulk string, or nil, whose length is a line, and what follows it.
fn read_bulk<'a>(len: &[u8], s: &'a [u8]) -> Option<(Item<'a>, &'a [u8])> {
    if let b"-1" = len {
        return Some((Item::Nil, s));
    }
    let n = number::read_version(len)?;
    let (text, rest) = s.split_at_checked(n as usize)?;
    Some((Item::Bulk(text), rest.strip_prefix(b"\r\n")?))
}

// The item that a reply begins with, and what follows it.
fn read_item(reply: &[u8]) -> Option<(Item<'_>, &[u8])> {
    let (kind, rest) = reply.split_first()?;
    let (line, rest) = split_line(rest)?;
    match kind {
        b'$' => read_bulk(line, rest),
        b'+' => Some((Item::Simple(line), rest)),
        b'-' => Some((Item::Error(line), rest)),
        b':' => Some((Item::Integer(line), rest)),
        _ => None,
    }
}

// Adds an item to a page.
fn add_item(page: &mut impl Write, item: Item<'_>) -> io::Result<()> {
    match item {
        Item::Simple(text) => page.write_all(text),
        Item::Error(text) => {
            page.write_all(b"(error) ")?;
            page.write_all(text)
        }
        Item::Integer(text) => {
            page.write_all(b"(integer) ")?;
            page.write_all(text)
        }
        Item::Bulk(text) => write!(page, "{}", Quoted(text)),
        Item::Nil => page.write_all(b"(nil)"),
    }
}

// Adds an item of an array with its number. The empty simple string has no blank before it.
fn add_numbered(page: &mut impl Write, i: usize, item: Item<'_>) -> io::Result<()> {
    write!(page, "{})", Decimal(i as u64))?;
    if !matches!(item, Item::Simple([])) {
        page.write_all(b" ")?;
    }
    add_item(page, item)?;
    page.write_all(b"\n")
}

// Adds the items of an array, and gives back what follows it; none where an item cannot be read.
fn add_items<'a>(
    page: &mut impl Write,
    count: usize,
    items: &'a [u8],
) -> io::Result<Option<&'a [u8]>> {
    let mut rest = items;
    for i in 0..count {
        let Some((item, after)) = read_item(rest) else {
            return Ok(None);
        };
        add_numbered(page, i + 1, item)?;
        rest = after;
    }
    Ok(Some(rest))
}

// Adds an array of less than ten items, and gives back what follows it.
fn add_array<'a>(page: &mut impl Write, array: &'a [u8]) -> io::Result<Option<&'a [u8]>> {
    match split_line(array) {
        Some((b"0", rest)) => {
            page.write_all(b"(empty array)\n")?;
            Ok(Some(rest))
        }
        Some(([digit @ b'1'..=b'9'], rest)) => add_items(page, (*digit - b'0') as usize, rest),
        _ => Ok(None),
    }
}

// Adds an array, or an item by itself, and gives back what follows it; none where the reply is no RESP2.
fn add_reply<'a>(page: &mut impl Write, reply: &'a [u8]) -> io::Result<Option<&'a [u8]>> {
    if let [b'*', array @ ..] = reply {
        return add_array(page, array);
    }
    let Some((item, rest)) = read_item(reply) else {
        return Ok(None);
    };
    add_item(page, item)?;
    page.write_all(b"\n")?;
    Ok(Some(rest))
}

// Prints a reply as redis-cli does, in one write where its text has at most 1,024 bytes, and says so where it is no RESP2 or bytes are left after it. A
// reply of no bytes prints nothing.
pub fn print_reply(rt: &impl Print, reply: &[u8]) -> io::Result<()>
    ensures { length reply.now ≡ 0 → IsOk result }
{
    if reply.is_empty() {
        return Ok(());
    }
    let mut page = Paged::new(rt);
    match add_reply(&mut page, reply)? {
        Some([]) => {}
        _ => page.write_all(b"malformed reply\n")?,
    }
    page.write_page()
}

#[cfg(test)]
mod tests {
    use super::*;
    use std::cell::{Cell, RefCell};
    use std::fmt::Display;
    use std::test::Fail;

    // An output that keeps what is written, and counts the writes.
    #[derive(Drop)]
    struct Kept {
        text: RefCell<Vec<u8>>,
        writes: Cell<u64>,
    }

    impl Print for Kept {
        fn print<D: Display + Drop>(&self, _value: D) -> io::Result<()> {
            Err(io::Error::other("not used"))
        }

        fn println<D: Display + Drop>(&self, _value: D) -> io::Result<()> {
            Err(io::Error::other("not used"))
        }

        fn write_all(&self, bytes: &[u8]) -> io::Result<()> {
            self.writes.set(self.writes.get().wrapping_add(1));
            match self.text.try_borrow_mut() {
                Ok(mut text) => text.write_all(bytes),
                Err(_) => Err(io::Error::other("in use")),
            }
        }
    }

    // Letters are printed whole, a bulk string of up to 1,021 in one write. It is printed by pieces, an error by a part that is longer than a page.
    #[test]
    fn long_reply_is_printed(rt: HostRuntime) -> Result<(), Fail> {
        for (head, n, before, after, once) in [
            ("$1000\r\n", 1000, "\"", "\"\n", true),
            ("$1021\r\n", 1021, "\"", "\"\n", true),
            ("$1022\r\n", 1022, "\"", "\"\n", false),
            ("$4000\r\n", 4000, "\"", "\"\n", false),
            ("-", 2000, "(error) ", "\n", false),
        ] {
            let mut reply = Vec::new(rt.alloc());
            reply.extend_from_slice(head.as_bytes())?;
            let mut want = Vec::new(rt.alloc());
            want.extend_from_slice(before.as_bytes())?;
            for _ in 0..n {
                reply.push(b'a')?;
                want.push(b'a')?;
            }
            reply.extend_from_slice(b"\r\n")?;
            want.extend_from_slice(after.as_bytes())?;
            let kept = Kept {
                text: RefCell::new(Vec::new(rt.alloc())),
                writes: Cell::new(0),
            };
            print_reply(&kept, &reply)?;
            let text = kept.text.try_borrow()?;
            assert_eq!(rt; text.as_slice(), want.as_slice(), "at {n}");
            assert_eq!(rt; kept.writes.get() == 1, once, "at {n}");
        }
        Ok(())
    }
}

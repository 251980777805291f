// Text that is put together in a buffer and then written at once, so that what several programs write to one output stays whole.
ghost use Rattle.std.specs.Prelude.{◌≡◌, ◌≤◌, ◌<◌, ◌++◌, length, take, IfSome, OnOk};
ghost use Rattle.std.specs.Fmt.{AppendsText, with_newline};

use std::fmt::{Display, Write};
use std::{fmt, io};

// The room for a line and its end.
const LINE: usize = 1024;

// The room for a text that is written by pages.
const PAGE: usize = 1024;

// A text of at most N bytes that is put together from parts. A part that has no room is left out whole, and that is an error.
// Kept: a buffer with a length, since a text on the heap could fail.
#[derive(Drop)]
pub(crate) struct Page<const N: usize> {
    bytes: [u8; N],
    len: usize,
    ghost within: { len ≤ N },
}

impl<const N: usize> Page<N> {
    pub(crate) fn new() -> Page<N>
        ensures { result.len ≡ 0 }
    {
        Page {
            bytes: [0; N],
            len: 0,
        }
    }

    pub(crate) fn text(&self) -> &[u8]
        ensures { result.now ≡ take self.now.len self.now.bytes }
    {
        &self.bytes[..self.len]
    }
}

impl<const N: usize> Write for Page<N> {
    ghost write_str_gives = { λ p s q. take q.len q.bytes ≡ take p.len p.bytes ++ s };

    fn write_str(&mut self, part: &str) -> fmt::Result {
        let part = part.as_bytes();
        if N - self.len < part.len() {
            return Err(fmt::Error);
        }
        let end = self.len + part.len();
        let bytes = &mut self.bytes[..];
        bytes[self.len..end].copy_from_slice(part);
        self.len = end;
        Ok(())
    }
}

// Adds a text and the end of its line.
fn add_line<D: Display + Drop>(page: &mut Page<LINE>, text: D) -> fmt::Result
    ensures { OnOk result (AppendsText (take page.old.len page.old.bytes) (take page.new.len page.new.bytes) (with_newline (D.output text))) }
{
    page.writeln(text)
}

// Prints a text and the end of its line, in one write. One that has no room is an error.
pub fn print_line<D: Display + Drop>(rt: &impl Print, text: D) -> io::Result<()>
    ensures { OnOk result (IfSome (D.output text) (λ bs. length bs < 1024)) }
{
    let mut page = Page::<LINE>::new();
    match add_line(&mut page, text) {
        Ok(()) => rt.write_all(page.text()),
        Err(fmt::Error) => Err(io::Error::other("the text is too long")),
    }
}

// An output to which text is written by pages: at once where it has room on one. A part that has no room left begins the next page, or is written by
// itself where it is longer than a page.
// Kept: a buffer with a length, since a text on the heap could fail.
#[derive(Drop)]
pub(crate) struct Paged<'a, R> {
    rt: &'a R,
    bytes: [u8; PAGE],
    len: usize,
    ghost fits: { len ≤ 1024 },
}

impl<'a, R: Print> Paged<'a, R> {
    pub(crate) fn new(rt: &'a R) -> Paged<'a, R> {
        Paged {
            rt,
            bytes: [0; PAGE],
            len: 0,
        }
    }

    // Writes what is on the page, and empties it.
    pub(crate) fn write_page(&mut self) -> io::Result<()>
        ensures { self.new.len ≡ 0 }
    {
        let n = self.len;
        self.len = 0;
        self.rt.write_all(&self.bytes[..n])
    }
}

impl<R: Print> io::Write for Paged<'_, R> {
    fn write(&mut self, part: &[u8]) -> io::Result<usize> {
        self.write_all(part)?;
        Ok(part.len())
    }

    fn flush(&mut self) -> io::Result<()> {
        self.write_page()
    }

    fn write_all(&mut self, part: &[u8]) -> io::Result<()> {
        if PAGE - self.len < part.len() {
            self.write_page()?;
            if PAGE < part.len() {
                return self.rt.write_all(part);
            }
        }
        let end = self.len + part.len();
        self.bytes[self.len..end].copy_from_slice(part);
        self.len = end;
        Ok(())
    }
}

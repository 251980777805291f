// Bytes and text, written to standard output or standard error.
use std::fmt::{Display, Write};
use std::{fmt, io};

// Standard error, which takes bytes that need not be text.
pub trait Complaints {
    // Writes bytes. Where they cannot be written there is nowhere left to say so.
    fn complain(&self, text: &[u8]);
}

impl Complaints for HostRuntime {
    fn complain(&self, text: &[u8]) {
        let _ = self.stderr().write_all(text);
    }
}

// Standard error as a writer of formatted text.
#[derive(Drop)]
struct Complaint<'a, R>(&'a R);

impl<R: Complaints> Write for Complaint<'_, R> {
    fn write_str(&mut self, part: &str) -> fmt::Result {
        self.0.complain(part.as_bytes());
        Ok(())
    }
}

// Writes bytes to standard output.
pub fn print(rt: &impl Print, text: &[u8]) -> io::Result<()> {
    rt.write_all(text)
}

// Writes bytes to standard error.
pub fn complain(rt: &impl Complaints, text: &[u8]) {
    rt.complain(text);
}

// Writes text to standard error.
pub fn complain_text(rt: &impl Complaints, text: impl Display + Drop) {
    let _ = write!(Complaint(rt), "{text}");
}

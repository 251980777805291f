// Why a call on a file or an output failed, in the C library's words.
use crate::page::Page;
use crate::text::{Complaints, complain};
use std::fmt::Write;
use std::io;

// The room for a reason.
const ROOM: usize = 256;

// A reason without the number of the system's error, which stands in brackets behind its words.
fn words(text: &[u8]) -> &[u8] {
    match text.iter().rposition(|b| *b == b'(') {
        Some(i) if 0 < i => &text[..i - 1],
        _ => text,
    }
}

// Writes what failed, as the caller names it, and why, on a line of standard error.
pub fn complain_error(rt: &impl Complaints, what: &[u8], error: io::Error) {
    complain(rt, what);
    complain(rt, b": ");
    let mut reason = Page::<ROOM>::new();
    if write!(reason, "{error}").is_ok() {
        let text = reason.text();
        let is_of_system = error.raw_os_error().is_some();
        complain(rt, if is_of_system { words(text) } else { text });
    }
    complain(rt, b"\n");
}

// Reading a file whole.
ghost use Rattle.std.specs.Prelude.{◌≤◌, length, IfOk};

use crate::NotLoaded;
use std::fs::File;
use std::io::{ErrorKind, Read};
use std::rt::Files;
use std::{io, str};
use terminal::{Complaints, complain, complain_error};

// Says on standard error why a call on a file failed.
pub fn tell(rt: &impl Complaints, path: &[u8], error: io::Error) {
    complain(rt, b"pietrunel: ");
    complain_error(rt, path, error);
}

// A path as the text that names its file.
pub(crate) fn named(path: &[u8]) -> io::Result<&str> {
    str::from_utf8(path).map_err(|_| io::Error::from(ErrorKind::InvalidFilename))
}

// Opens a file to be read.
pub(crate) fn open_read<R: Files>(rt: &R, path: &[u8]) -> io::Result<R::File> {
    File::open(rt, named(path)?)
}

// Reads a file to its end, or until the buffer is full, and gives back how many bytes came.
// Kept: a loop of reads, since std's `read_to_end` takes a `Vec`, and `read_exact` refuses a shorter file.
fn read_to_end(file: &mut impl Read, buf: &mut [u8]) -> io::Result<usize>
    ensures { IfOk result (λ n. n ≤ length buf.new) }
{
    let mut done = 0;
    while done < buf.len() {
        let got = file.read(&mut buf[done..])?;
        if got == 0 {
            break;
        }
        done += got;
    }
    Ok(done)
}

// Reads a file, and tells nothing.
fn read_file(rt: &impl Files, path: &[u8], buf: &mut [u8]) -> io::Result<usize>
    ensures { IfOk result (λ n. n ≤ length buf.new) }
{
    let mut file = open_read(rt, path)?;
    read_to_end(&mut file, buf)
}

// Reads a file to its end, or until the buffer is full, and gives back what came: no bytes where it cannot be read, and nothing is told.
pub fn fetch<'a>(rt: &impl Files, path: &[u8], buf: &'a mut [u8]) -> &'a [u8] {
    match read_file(rt, path, buf) {
        Ok(n) => &buf[..n],
        Err(_) => &[],
    }
}

// Tells why a file was not read.
fn told(rt: &impl Complaints, path: &[u8], error: io::Error) -> NotLoaded {
    tell(rt, path, error);
    NotLoaded::Told
}

// Opens a file to be loaded.
fn open_load<R: Files + Complaints>(rt: &R, path: &[u8]) -> Result<R::File, NotLoaded> {
    match open_read(rt, path) {
        Ok(file) => Ok(file),
        Err(error) if error.kind() == ErrorKind::NotFound => Err(NotLoaded::Missing),
        Err(error) => Err(told(rt, path, error)),
    }
}

// Reads a file to its end, or until the buffer is full, and gives back what came.
pub fn load<'a>(
    rt: &(impl Files + Complaints),
    path: &[u8],
    buf: &'a mut [u8],
) -> Result<&'a mut [u8], NotLoaded>
    ensures { IfOk result (λ t. length t.now ≤ length buf.old) }
{
    let mut file = open_load(rt, path)?;
    match read_to_end(&mut file, buf) {
        Ok(n) => Ok(&mut buf[..n]),
        Err(error) => Err(told(rt, path, error)),
    }
}

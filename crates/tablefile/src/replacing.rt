// Replacing a table: its new file is made, written, synced and renamed over it.
ghost use Rattle.std.specs.Prelude.{◌≡◌, ◌≤◌, ◌<◌, length};

use crate::Rights;
use crate::name::{folder, put_new_name};
use crate::reading::{named, open_read, tell};
use std::fs::{File, OpenOptions, Permissions};
use std::io::{ErrorKind, Write};
use std::os::unix::fs::{OpenOptionsExt, PermissionsExt, fchown};
use std::random::RandomSource;
use std::rt::Files;
use std::{fs, io};
use terminal::{Complaints, complain, complain_error};

// The bytes of the new file's name in its folder.
const NEW_SIZE: usize = 21;

// The bytes at its end that are chosen so that no file is called so yet.
const CHOSEN: usize = 6;

// What they are chosen from.
const LETTERS: [u8; 62] = *b"abcdefghijklmnopqrstuvwxyzABCDEFGHIJKLMNOPQRSTUVWXYZ0123456789";

// How often a name is chosen, where the ones before were taken.
const TRIES: usize = 1000;

// Whether a file may be written or is missing; where it may not, this is told.
fn is_writable(rt: &(impl Files + Complaints), path: &[u8]) -> bool {
    match open_update(rt, path) {
        Ok(_) => true,
        Err(error) if error.kind() == ErrorKind::NotFound => true,
        Err(error) => {
            tell(rt, path, error);
            false
        }
    }
}

// Opens a file to be read and written.
fn open_update<R: Files>(rt: &R, path: &[u8]) -> io::Result<R::File> {
    OpenOptions::new()
        .read(true)
        .write(true)
        .open(rt, named(path)?)
}

// The letter that a byte stands for.
fn letter(b: u8) -> u8 {
    LETTERS[b as usize % LETTERS.len()]
}

// Puts letters at random at the end of a name.
fn choose(rt: &impl RandomSource, name: &mut [u8]) -> io::Result<()>
    ensures { length name.new ≡ length name.old }
{
    let mut bytes = [0u8; CHOSEN];
    rt.fill_bytes(&mut bytes)?;
    for (place, b) in name.iter_mut().rev().zip(bytes) {
        *place = letter(b);
    }
    Ok(())
}

// Makes a file that is not there yet, for its owner alone.
fn create<R: Files>(rt: &R, name: &[u8]) -> io::Result<R::File> {
    OpenOptions::new()
        .read(true)
        .write(true)
        .create_new(true)
        .mode(0o600)
        .open(rt, named(name)?)
}

// Makes the new file, whose name is the buffer but for the letters at its end, which are put in place.
fn make<R: Files + RandomSource>(rt: &R, name: &mut [u8]) -> io::Result<R::File> {
    for _ in 0..TRIES {
        choose(rt, name)?;
        match create(rt, name) {
            Err(error) if error.kind() == ErrorKind::AlreadyExists => {}
            made => return made,
        }
    }
    choose(rt, name)?;
    create(rt, name)
}

// Makes the new file in a folder, and gives it back with its name, which is put in a buffer.
fn begin<'a, R: Files + RandomSource>(
    rt: &R,
    folder: &[u8],
    name: &'a mut [u8],
) -> io::Result<(R::File, &'a [u8])> {
    if name.len() < NEW_SIZE || name.len() - NEW_SIZE < folder.len() {
        return Err(io::Error::from(ErrorKind::InvalidFilename));
    }
    let n = put_new_name(folder, name);
    let name = &mut name[..n];
    let file = make(rt, name)?;
    Ok((file, name))
}

// Says on standard error that a file's owner and mode cannot be kept, and why.
fn tell_rights(rt: &impl Complaints, path: &[u8], error: io::Error) {
    complain(rt, b"pietrunel: ");
    complain(rt, path);
    complain(rt, b": ");
    complain_error(rt, b"its owner and mode cannot be kept", error);
}

// Sets the owner, group and mode of a file.
fn set_rights(file: &File, rights: Rights) -> io::Result<()> {
    fchown(file, rights.owner, rights.group)?;
    file.set_permissions(Permissions::from_mode(rights.mode))
}

// Writes bytes to a file and waits until its device has them.
fn fill(file: &mut File, bytes: &[u8]) -> io::Result<()> {
    file.write_all(bytes)?;
    file.sync_all()
}

// Waits until a folder's device knows of a new name in it. A file system that cannot say so is no failure: the table is one of the two.
fn sync(rt: &impl Files<File = File>, folder: &[u8]) {
    if let Ok(file) = open_read(rt, folder) {
        let _ = file.sync_all();
    }
}

// Waits until the folder of a path knows of it.
fn sync_folder(rt: &impl Files<File = File>, path: &[u8]) {
    let n = folder(path);
    sync(rt, if n == 0 { b"." } else { &path[..n] });
}

// Removes the new file where the table cannot be replaced.
fn remove(rt: &impl Files, new: &[u8]) {
    if let Ok(name) = named(new) {
        let _ = fs::remove_file(rt, name);
    }
}

// Renames the new file over the table.
fn rename(rt: &impl Files, new: &[u8], path: &[u8]) -> io::Result<()> {
    fs::rename(rt, named(new)?, named(path)?)
}

// A failure that was told.
#[derive(Clone, Copy)]
struct Told;

// What is to stand in a table's file, and its rights.
#[derive(Clone, Copy)]
struct Replacement<'a> {
    path: &'a [u8],
    rights: Rights,
    bytes: &'a [u8],
}

impl Replacement<'_> {
    // Fills the new file and closes it.
    fn prepare(&self, rt: &impl Complaints, mut file: File) -> Result<(), Told> {
        if let Err(error) = set_rights(&file, self.rights) {
            tell_rights(rt, self.path, error);
            return Err(Told);
        }
        self.or_tell(rt, fill(&mut file, self.bytes))
    }

    // What became of a call, of which a failure is told.
    fn or_tell(&self, rt: &impl Complaints, done: io::Result<()>) -> Result<(), Told> {
        done.map_err(|error| {
            tell(rt, self.path, error);
            Told
        })
    }

    // Fills the new file, closes it and renames it over the table.
    fn finish<R: Files<File = File> + Complaints>(
        &self,
        rt: &R,
        file: File,
        new: &[u8],
    ) -> Result<(), Told> {
        self.prepare(rt, file)?;
        self.or_tell(rt, rename(rt, new, self.path))
    }

    // Replaces the table by way of a new file in its folder, which is removed where that fails.
    fn replace_in<R: Files<File = File> + RandomSource + Complaints>(
        &self,
        rt: &R,
        folder: &[u8],
    ) -> Result<(), Told> {
        let mut buffer = [0u8; 4096];
        match begin(rt, folder, &mut buffer) {
            Ok((file, new)) => {
                let done = self.finish(rt, file, new);
                if done.is_err() {
                    remove(rt, new);
                }
                done
            }
            Err(error) => self.or_tell(rt, Err(error)),
        }
    }
}

// Replaces the table of a file, or makes the file; gives back whether it did. Where it did not, the old table stands and the reason is told.
pub fn replace<R: Files<File = File> + RandomSource + Complaints>(
    rt: &R,
    path: &[u8],
    rights: Rights,
    bytes: &[u8],
) -> bool {
    if !is_writable(rt, path) {
        return false;
    }
    let replacement = Replacement {
        path,
        rights,
        bytes,
    };
    let n = folder(path);
    let done = replacement.replace_in(rt, &path[..n]).is_ok();
    if done {
        sync_folder(rt, path);
    }
    done
}

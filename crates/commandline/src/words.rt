// The words of a command, from the arguments to RESP2.
use crate::ROOM;
use std::env::Env;
use std::ops::Range;

// Adds the argument at a place to the command that the first `len` bytes of a buffer begin, and gives back its length then.
fn add_argument(
    rt: &impl Env,
    command: &mut [u8; ROOM],
    len: usize,
    place: usize,
) -> Option<usize> {
    let mut word = [0u8; 4096];
    let n = rt.arg(place, &mut word).ok()?;
    build::add_word(command, len, &word[..n])
}

// Builds the command whose words are the arguments at some places, and gives back its length.
fn add_all(rt: &impl Env, places: Range<usize>, command: &mut [u8; ROOM]) -> Option<usize> {
    let mut len = build::begin_command(command, places.len())?;
    for place in places {
        len = add_argument(rt, command, len, place)?;
    }
    Some(len)
}

// Builds the command whose words are the arguments at some places at the start of a buffer, and gives it back. Where they make none it has no
// bytes, which the store refuses.
pub fn compose<'a>(rt: &impl Env, places: Range<usize>, command: &'a mut [u8; ROOM]) -> &'a [u8] {
    let len = add_all(rt, places, command).unwrap_or(0);
    command.get(..len).unwrap_or(&[])
}

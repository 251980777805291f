// Commands that come in pieces: what a piece makes of the bytes held so far.
#![tactic(auto)]

mod frame;
mod machine;
mod state;

ghost use Rattle.std.specs.Prelude.{◌≡◌, ◌+◌, ◌≤◌, cond, length, take, eqb};
ghost use Rattle.model.specs.Bytes.{written};
ghost use Rattle.stream.specs.Assembler.{command_in};
ghost use Rattle.assembler.specs.Assembling.{Begun, Assembles};

use crate::machine::Scanned;
use crate::state::State;

// The bytes that an assembler needs: the longest command.
pub const SIZE: usize = 512;

// What a piece comes to. `More`: no whole command yet, and all its bytes are taken and held. `Whole`: so many of its bytes are taken, and they
// make the command whole. `Refused`: so many are taken, and no whole command can follow; 0: what is held cannot have
// come from a call.
// Kept: an enum of three; as an `Option` in a `Result` its three cases would have no names of their own, which is no plainer.
#[derive(Clone, Copy)]
pub enum Assembled {
    More,
    Whole(usize),
    Refused(usize),
}

// Puts the first n bytes of a piece behind those that are held, unless nothing is: then the command is a part of the piece, and is not copied.
fn keep(bytes: &mut [u8], held: usize, piece: &[u8], n: usize)
    requires { (n ≤ length piece.now) × (held + n ≤ length bytes.old) }
    ensures { bytes.new ≡ cond (eqb held 0) bytes.old (written held (take n piece.now) bytes.old) }
{
    if held == 0 {
        return;
    }
    slice::copy(bytes, held, &piece[..n]);
}

// Takes a piece behind bytes that are held and leave this state.
fn extend(bytes: &mut [u8], held: usize, piece: &[u8], state: State) -> Assembled
    requires { Begun bytes.old held state }
    ensures { Assembles bytes.old held piece.now result bytes.new }
{
    match state.scan(piece) {
        Scanned::More(_) => {
            slice::copy(bytes, held, piece);
            Assembled::More
        }
        Scanned::Whole(n) => {
            keep(bytes, held, piece, n);
            Assembled::Whole(n)
        }
        Scanned::Dead(n) => Assembled::Refused(n),
    }
}

// Takes a piece. The first `held` bytes of the assembler's are those of the pieces before it, 0 for none; where they cannot be, or the assembler
// has fewer than 512 bytes, no byte is taken.
// Kept: buffer and count as two, as C hands them over at each call; a struct would be made for one call and taken apart after it.
pub fn assemble(bytes: &mut [u8], held: usize, piece: &[u8]) -> Assembled
    ensures { Assembles bytes.old held piece.now result bytes.new }
{
    if bytes.len() < SIZE || bytes.len() < held {
        return Assembled::Refused(0);
    }
    match State::begin().scan(&bytes[..held]) {
        Scanned::More(state) => extend(bytes, held, piece, state),
        Scanned::Whole(_) | Scanned::Dead(_) => Assembled::Refused(0),
    }
}

// The command that n bytes of a piece have made whole: a part of the piece where nothing was held before it, else a part of the assembler's
// bytes.
pub fn command<'a>(bytes: &'a [u8], held: usize, piece: &'a [u8], n: usize) -> &'a [u8]
    requires { (n ≤ length piece.now) × (held + n ≤ length bytes.now) }
    ensures { result.now ≡ command_in bytes.now held piece.now n }
{
    if held == 0 {
        return &piece[..n];
    }
    &bytes[..held + n]
}

// Where the bytes of a command so far stand, and how many they are.
ghost use Rattle.std.specs.Prelude.{◌+◌, ◌≤◌};
ghost use Rattle.model.specs.Resp.{command_limit};
ghost use Rattle.stream.specs.Frame.{need};
ghost use Rattle.assembler.specs.Places.{place_of};

use crate::frame::Place;

// What comes next, after so many bytes: a whole command can follow.
#[derive(Clone, Copy)]
pub struct State {
    pub place: Place,
    pub used: u16,
    ghost fits: { used + need (place_of place) ≤ command_limit },
}

// The bytes of a command, each looked at once: a small state goes from byte to byte.
ghost use Rattle.std.specs.Prelude.{◌≡◌};
ghost use Rattle.stream.specs.Machine.{begin, step, scan};
ghost use Rattle.assembler.specs.States.{state_of, state_after, scan_of};

use crate::frame::Place;
use crate::state::State;

// What bytes come to: no whole command yet; one after so many of them; or none can follow after so many.
// Kept: an enum of three; as an `Option` in a `Result` its three cases would have no names of their own, which is no plainer.
#[derive(Clone, Copy)]
pub enum Scanned {
    More(State),
    Whole(usize),
    Dead(usize),
}

impl State {
    // The state before the first byte.
    pub fn begin() -> Self
        ensures { state_of result ≡ begin }
    {
        State {
            place: Place::Start,
            used: 0,
        }
    }

    // The state after one byte more; none where no whole command can follow.
    fn step(self, c: u8) -> Option<Self>
        ensures { state_after result ≡ step (state_of self) c }
    {
        let place = self.place.next(c)?;
        let used = self.used + 1;
        if place.is_beyond(used) {
            return None;
        }
        Some(State { place, used })
    }

    // What bytes come to from here on. Bytes past a whole command, or past the first after which none can follow, are not looked at.
    pub fn scan(self, bytes: &[u8]) -> Scanned
        ensures { scan_of result ≡ scan (state_of self) bytes.now }
    {
        let mut state = self;
        for (i, &c) in bytes.iter().enumerate() {
            let Some(next) = state.step(c) else {
                return Scanned::Dead(i + 1);
            };
            if next.place.is_end() {
                return Scanned::Whole(i + 1);
            }
            state = next;
        }
        Scanned::More(state)
    }
}

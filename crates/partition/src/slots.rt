// The slots of the part that a call means, for a caller that looks at them itself.
ghost use Rattle.std.specs.Prelude.{◌≡◌};
ghost use Rattle.partition.specs.Parts.{model_view};
ghost use Rattle.partition.specs.Slots.{meets_at, Covers};

use crate::{Party, View};
use std::ops::Range;

// Where the two parts of a table meet, counted in records; 0 where it is one.
// Kept: 0 is no sentinel, but the place before which no record stands, so that whoever compares two slots with it has no case more.
pub fn meets_at(view: View) -> usize
    ensures { result ≡ meets_at (model_view view) }
{
    match view.party {
        Party::Whole => 0,
        Party::Owner => view.boundary,
        Party::Installer => view.boundary,
    }
}

// The slots of the caller's part of a table of n records.
pub fn slots_of(view: View, n: usize) -> Range<usize>
    ensures { Covers (model_view view) n result }
{
    let boundary = view.boundary.min(n);
    match view.party {
        Party::Whole => 0..n,
        Party::Owner => 0..boundary,
        Party::Installer => boundary..n,
    }
}

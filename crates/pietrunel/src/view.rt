// The parties by their numbers in C.
ghost use Rattle.std.specs.Prelude.{◌≡◌};
ghost use Rattle.pietrunel.specs.Views.{view_of, named_view};

use partition::{Party, View};

// The view of a party: 0 the whole table, 1 the owner, 2 the installer; none for another number.
pub fn view_of(party: u32, boundary: usize) -> Option<View>
    ensures { named_view result ≡ view_of party boundary }
{
    let party = match party {
        0 => Party::Whole,
        1 => Party::Owner,
        2 => Party::Installer,
        _ => {
            return None;
        }
    };
    Some(View { party, boundary })
}

// The index of a table: the numbers of its slots in use, in byte order of their keys, in a borrowed list of a byte each.
#![tactic(auto)]

mod index;
mod keys;
mod search;

pub use index::make_index;
pub use keys::compare;
pub use search::find_place;

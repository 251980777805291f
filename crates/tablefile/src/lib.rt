// A table in a file. It is loaded whole, and replaced whole: a new file beside it is written, synced and renamed over it, so that a crash
// leaves the old table or the new one. Whoever calls sees to it that no other process replaces the table meanwhile.
#![tactic(auto)]

mod name;
mod reading;
mod replacing;

pub use name::{folder, put_new_name};
pub use reading::{fetch, load, tell};
pub use replacing::replace;

// The room for a table: one record more than it can have, so that a longer file is seen to be one.
pub const SPACE: usize = 32896;

// Why a table's file was not read: there is none, or reading it failed, which was told.
#[derive(Clone, Copy)]
pub enum NotLoaded {
    Missing,
    Told,
}

// The mode of a file, and the numbers of its owner and group; none stands for that which a new file has by itself.
#[derive(Clone, Copy)]
pub struct Rights {
    pub mode: u32,
    pub owner: Option<u32>,
    pub group: Option<u32>,
}

// Prints what differs between the tables of two files in the folder that it is run in, before.table and after.table. The files with it hold
// document 02's example.
#![tactic(auto)]

use inspection::print_difference;
use tablefile::{SPACE, fetch, tell};

fn main(rt: HostRuntime) {
    let mut first = [0u8; SPACE];
    let before = fetch(&rt, b"before.table", &mut first);
    let mut second = [0u8; SPACE];
    let after = fetch(&rt, b"after.table", &mut second);
    let printed = print_difference(&rt, before, after);
    if let Err(error) = printed.written {
        tell(&rt, b"standard output", error);
    }
}

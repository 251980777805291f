// Commands on a table file, from the command line or from standard input. The script `pietrunel` at the repository's root runs this program
// and a keeper beside it, which has the table's lock and the time, and takes the exit status.
#![tactic(auto)]

mod caller;
mod comparison;
mod creation;
mod exchange;
mod failure;
mod host;
mod job;
mod keeper;
mod listing;
mod serve;
mod session;

use commandline::{count_arguments, read_line};

fn main(rt: HostRuntime) {
    let count = count_arguments(&rt);
    let line = read_line(&rt, count);
    let status = job::run(&rt, line, count);
    if line.keeper.is_some() {
        keeper::tell_status(status);
    }
}

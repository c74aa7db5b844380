//! Reads a materials file from standard input and prints its schedule.
#![tactic(auto)]

use schedule_text::program::run;
use std::io;

fn main(rt: HostRuntime) -> io::Result<()> {
    run(&rt)
}

//! A channel at the keyboard: opens the channel of a record of a materials file, and works the calls that are typed, one to a line.
#![tactic(auto)]

use console_text::program::run;
use std::io;

fn main(rt: HostRuntime) -> io::Result<()> {
    run(&rt)
}

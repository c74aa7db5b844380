//! The same program on a record that has no sheet: the channel is opened without a watch.
#![tactic(auto)]

use console_text::program::run;
use std::io;

fn main(rt: HostRuntime) -> io::Result<()> {
    run(&rt)
}

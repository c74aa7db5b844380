//! The same program over bare words, with a swap after which the watch is lapsed.
#![tactic(auto)]

use console_text::program::run;
use std::io;

fn main(rt: HostRuntime) -> io::Result<()> {
    run(&rt)
}

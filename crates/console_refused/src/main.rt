//! The same program asked for a name that no record has: it prints the refusal and works no line.
#![tactic(auto)]

use console_text::program::run;
use std::io;

fn main(rt: HostRuntime) -> io::Result<()> {
    run(&rt)
}

//! The same program on a file that is refused: a byte too many.
#![tactic(auto)]

use schedule_text::program::run;
use std::io;

fn main(rt: HostRuntime) -> io::Result<()> {
    run(&rt)
}

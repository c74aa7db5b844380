//! What the program does: reads a materials file from standard input and prints its schedule.
use crate::schedule::schedule;
use std::io;
use std::io::{Read, Write};

// One byte more than a file may have, so that a longer one is seen to be too long.
const MOST: u64 = 65001;

/// Prints the schedule of the file on standard input.
pub fn run(rt: &HostRuntime) -> io::Result<()> {
    let mut file = Vec::new(rt.alloc());
    rt.stdin().take(MOST).read_to_end(&mut file)?;
    let text = schedule(rt.alloc(), &file)?;
    rt.stdout().write_all(&text)
}

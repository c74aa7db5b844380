//! What the program does: reads a materials file and the lines of standard input, and prints the text of the session.
use crate::halt::Halt;
use crate::session::session;
use std::io::Read;
use std::{env, fs, io};

const USAGE: &str = "usage: console FILE NAME word|enclosed|bound";

/// Works the lines of standard input on the channel that the arguments ask for.
pub fn run(rt: &HostRuntime) -> io::Result<()> {
    let mut args = env::args(rt)?;
    args.next();
    let (Some(path), Some(name), Some(kind)) = (args.next(), args.next(), args.next()) else {
        return rt.eprintln(USAGE);
    };
    let file = fs::read(rt, &path)?;
    let mut input = Vec::new(rt.alloc());
    rt.stdin().read_to_end(&mut input)?;
    match session(rt.alloc(), &file, name.as_bytes(), &kind, &input) {
        Ok(text) => rt.print(&text),
        Err(Halt::Refused(number)) => println!(rt; "refused\t{number}"),
        Err(Halt::Memory) => rt.eprintln("memory ran out"),
        Err(Halt::UnknownKind) => rt.eprintln(USAGE),
    }
}

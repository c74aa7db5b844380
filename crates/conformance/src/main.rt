// Works the cases of standard input with the library, one to a line, and prints the answer of each.
#![tactic(auto)]

mod calls;
mod case;
mod fault;
mod files;
mod filters;
mod hex;
mod numbers;
mod records;
mod rows;
mod rules;
mod runs;
mod settings;
mod sheets;
mod show;
mod values;
mod wirings;

use crate::case::work_over;
use crate::fault::Fault;
use crate::files::{print_place, print_records, print_schedule, print_written};
use crate::filters::print_form;
use crate::rows::Rows;
use crate::rules::{print_reach, print_round, print_stored};
use crate::runs::Run;
use crate::settings::read_setting;
use crate::sheets::print_sheet;
use std::io;
use std::io::{BufRead, BufReader};
use std::str::from_utf8;

// Works the case of these fields.
fn work(rt: &HostRuntime, fields: &[&str]) -> Result<(), Fault> {
    match fields {
        ["round", rule, bits, p] => print_round(rt, rule, bits, p),
        ["reach", rule, bits, m] => print_reach(rt, rule, bits, m),
        ["store", rule, bits, raw] => print_stored(rt, rule, bits, raw),
        ["form", form, b, a] => print_form(rt, form, b, a),
        ["sheet", k, l, r, o, rest @ ..] => print_sheet(rt, read_setting(k, l, r, o)?, rest),
        ["run", k, l, r, o, kind, rest @ ..] => work_over::<Run>(
            rt,
            kind,
            &read_setting(k, l, r, o)?,
            rest,
        ),
        ["rows", k, l, r, o, kind, rest @ ..] => work_over::<Rows>(
            rt,
            kind,
            &read_setting(k, l, r, o)?,
            rest,
        ),
        ["read", file] => print_records(rt, file),
        ["look", file, name] => print_place(rt, file, name),
        ["write", length, records @ ..] => print_written(rt, length, records),
        ["schedule", file] => print_schedule(rt, file),
        _ => Err(Fault::Unread),
    }
}

// Works the case of a line, which may end with a line feed.
fn work_line(rt: &HostRuntime, line: &[u8]) -> Result<(), Fault> {
    let line = line.strip_suffix(b"\n").unwrap_or(line);
    let text = from_utf8(line).map_err(|_| Fault::Unread)?;
    let fields: Vec<&str> = text.split(' ').collect(rt.alloc())?;
    work(rt, &fields)
}

// Works all lines.
fn work_lines(rt: &HostRuntime) -> Result<(), Fault> {
    let mut input = BufReader::new(rt.alloc(), rt.stdin())?;
    let mut line = Vec::new(rt.alloc());
    // The language's own form of a loop that waits for input.
    for _ in 0..u64::MAX {
        line.clear();
        if input.read_until(b'\n', &mut line)? == 0 {
            break;
        }
        match work_line(rt, &line) {
            Err(Fault::Unread) => rt.println("unread")?,
            other => other?,
        }
    }
    Ok(())
}

fn main(rt: HostRuntime) -> io::Result<()> {
    match work_lines(&rt) {
        Ok(()) | Err(Fault::Unread) => Ok(()),
        Err(Fault::Memory) => Err(io::Error::from(io::ErrorKind::OutOfMemory)),
        Err(Fault::Failed(e)) => Err(e),
    }
}

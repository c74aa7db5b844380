//! Cases of materials files.
use crate::fault::Fault;
use crate::hex::{Hex, read_bytes};
use crate::numbers::read_at_most;
use crate::records::{Line, read_records};
use crate::show::Refused;
use materials::look_up::look_up;
use materials::read::read;
use materials::refusal::Refusal;
use materials::write::write;
use schedule_text::schedule::schedule;
use std::io::Write;

// A refusal as it is shown. Want of memory has no number, and ends the program.
fn refused(refusal: Refusal) -> Result<Refused, Fault> {
    Ok(Refused {
        number: u32::from(refusal.number().ok_or(Fault::Memory)?),
        place: refusal.record(),
    })
}

/// The records of a file.
pub fn print_records(rt: &HostRuntime, file: &str) -> Result<(), Fault> {
    let heap = rt.alloc();
    match read(heap, &read_bytes(heap, file)?) {
        Ok(records) => {
            println!(rt; "records {}", records.len())?;
            for record in &records {
                println!(rt; "{}", Line(record))?;
            }
        }
        Err(refusal) => println!(rt; "{}", refused(refusal)?)?,
    }
    Ok(())
}

/// Where a file has the record of a name.
pub fn print_place(rt: &HostRuntime, file: &str, name: &str) -> Result<(), Fault> {
    let heap = rt.alloc();
    let file = read_bytes(heap, file)?;
    let name = read_bytes(heap, name)?;
    match look_up(&file, &name) {
        Ok(found) => println!(rt;
            "found {} {} {}",
            found.number,
            found.offset,
            Hex(found.bytes)
        )?,
        Err(refusal) => println!(rt; "{}", refused(refusal)?)?,
    }
    Ok(())
}

// What each byte of the destination is before a write.
const BEFORE: u8 = 170;

// The most bytes that a destination may have.
const MAX_BYTES: usize = 100000;

/// The file of these records, written into a destination of so many bytes.
pub fn print_written(rt: &HostRuntime, length: &str, records: &[&str]) -> Result<(), Fault> {
    let heap = rt.alloc();
    let length = read_at_most(length, MAX_BYTES)?;
    let records = read_records(heap, records)?;
    let mut destination = vec![in heap; BEFORE; length]?;
    match write(&records, &mut destination) {
        Ok(count) => print!(rt; "wrote {count}")?,
        Err(refusal) => print!(rt; "{}", refused(refusal)?)?,
    }
    println!(rt; " {}", Hex(&destination))?;
    Ok(())
}

/// The schedule of a file.
pub fn print_schedule(rt: &HostRuntime, file: &str) -> Result<(), Fault> {
    let heap = rt.alloc();
    let text = schedule(heap, &read_bytes(heap, file)?)?;
    rt.stdout().write_all(&text)?;
    Ok(())
}

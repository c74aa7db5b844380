// Takes one wall from the materials file to its outputs, and prints each step.
#![tactic(auto)]

mod halt;
mod report;

use crate::halt::Halt;
use crate::report::{
    print_choices, print_coefficients, print_file, print_format, print_step, print_wiring,
};
use kinds::enclosures::EnclosedKind;
use kinds::kind::Kind;
use kinds::values::Values;
use materials::look_up::look_up;
use materials::read::read;
use materials::record::Record;
use std::io;
use std::io::Read;
use wiring::program::Program;

// A pulse, then silence.
const SAMPLES: [i32; 7] = [64, 0, 0, 0, 0, 0, 0];

// The record's filter made, then a pulse and six zeros worked over the enclosed kind.
fn work(rt: &HostRuntime, record: &Record) -> Result<(), Halt> {
    let heap = rt.alloc();
    let choices = record.choices()?;
    let setting = record.setting(choices).check()?;
    print_format(rt, &setting.format)?;
    print_choices(rt, choices)?;
    let filter = choices
        .form
        .build(heap, &record.feedforward, &record.feedback)?;
    print_coefficients(rt, &setting.format, &filter.coefficients)?;
    let program = Program::new(&setting.format, filter)?;
    print_wiring(rt, &program)?;
    let zero = EnclosedKind.zero(&setting);
    let mut registers = vec![in heap; zero; program.sources().len()]?;
    let mut working = vec![in heap; zero; program.nodes().len()]?;
    let values = Values {
        kind: EnclosedKind,
        setting,
    };
    rt.println(
        "samples over words with an error enclosure; the ends are in ticks, 1/4096 of a step",
    )?;
    for sample in SAMPLES {
        let output = program.step(&values, &mut registers, &mut working, sample)?;
        print_step(rt, sample, output, &registers)?;
    }
    Ok(())
}

// The file read, and its first wall looked up and worked.
fn walk(rt: &HostRuntime, file: &[u8]) -> Result<(), Halt> {
    let records = read(rt.alloc(), file)?;
    print_file(rt, file, &records)?;
    let Some(first) = records.first() else {
        return Ok(());
    };
    let found = look_up(file, &first.name)?;
    println!(rt;
        "the first of them is record {}, at byte {}",
        found.number, found.offset
    )?;
    work(rt, first)
}

fn main(rt: HostRuntime) -> io::Result<()> {
    let mut file = Vec::new(rt.alloc());
    rt.stdin().take(65001).read_to_end(&mut file)?;
    match walk(&rt, &file) {
        Ok(()) => Ok(()),
        Err(Halt::Print(e)) => Err(e),
        Err(halt) => println!(rt; "{halt}"),
    }
}

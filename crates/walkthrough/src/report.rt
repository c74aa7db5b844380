use arithmetic::choice::{OverflowChoice, RoundingChoice};
use arithmetic::format::Format;
use forms::form::Form;
use kinds::values::Enclosed;
use materials::letters::Choices;
use materials::record::Record;
use std::{fmt, io};
use wiring::graph::Node;
use wiring::program::Program;

// The format and its words.
pub fn print_format(rt: &HostRuntime, format: &Format) -> io::Result<()> {
    let whole = format.whole();
    let fraction = format.fraction();
    let bits = format.width().bits();
    let half = format.width().half();
    let low = -half;
    let high = half - 1;
    let unit = format.unit();
    println!(rt;
        "format {whole}.{fraction}: {whole} whole bits with the sign, {fraction} fraction bits, {bits} bits in all"
    )?;
    println!(rt; "words from {low} to {high}, in steps of 1/{unit}")
}

// A record's name, a character for each byte.
#[derive(Drop)]
struct Name<'a>(&'a [u8]);

impl fmt::Display for Name<'_> {
    fn fmt<W: fmt::Write>(&self, f: &mut fmt::Formatter<W>) -> fmt::Result {
        for b in self.0 {
            f.write_char(char::from(*b))?;
        }
        Ok(())
    }
}

// How long the file is, and the names of its records.
pub fn print_file(rt: &HostRuntime, file: &[u8], records: &[Record]) -> io::Result<()> {
    println!(rt;
        "a materials file of {} bytes with {} records:",
        file.len(),
        records.len()
    )?;
    for (i, record) in records.iter().enumerate() {
        println!(rt; "  record {}: {}", i.saturating_add(1), Name(&record.name))?;
    }
    Ok(())
}

// What the record's letters chose.
pub fn print_choices(rt: &HostRuntime, choices: Choices) -> io::Result<()> {
    let form = match choices.form {
        Form::Direct1 => "direct form 1",
        Form::Direct2 => "direct form 2",
        Form::Transposed2 => "transposed form 2",
    };
    let rounding = match choices.rounding {
        RoundingChoice::Floor => "down",
        RoundingChoice::Nearest => "to the nearest",
        RoundingChoice::TowardZero => "toward zero",
    };
    let overflow = match choices.overflow {
        OverflowChoice::Wrap => "wraps around",
        OverflowChoice::Saturate => "saturates",
        OverflowChoice::Stop => "stops the run",
    };
    println!(rt; "{form}; products are rounded {rounding}, overflow {overflow}")
}

// Each coefficient with what it is worth.
pub fn print_coefficients(
    rt: &HostRuntime,
    format: &Format,
    coefficients: &[i32],
) -> io::Result<()> {
    let steps = f64::from(1u32 << format.fraction());
    println!(rt; "the coefficients of the input, then those of the output")?;
    for (i, c) in coefficients.iter().enumerate() {
        let worth = f64::from(*c) / steps;
        println!(rt; "  coefficient {i}: {c}, worth {worth}")?;
    }
    Ok(())
}

// A node in words, with the coefficients of its program.
#[derive(Drop)]
struct InWords<'a>(Node, &'a [i32]);

impl fmt::Display for InWords<'_> {
    fn fmt<W: fmt::Write>(&self, f: &mut fmt::Formatter<W>) -> fmt::Result {
        match self.0 {
            Node::Input => f.write_str("the sample"),
            Node::Zero => f.write_str("zero"),
            Node::Register(r) => write!(f, "register {r}"),
            Node::Scale { node, coefficient } => match self.1.get(coefficient) {
                Some(c) => write!(f, "node {node} times coefficient {coefficient} ({c})"),
                None => write!(f, "node {node} times coefficient {coefficient}"),
            },
            Node::Sum(p, q) => write!(f, "node {p} plus node {q}"),
            Node::Difference(p, q) => write!(f, "node {p} minus node {q}"),
        }
    }
}

// The nodes in order, the output, and what each register takes.
pub fn print_wiring(rt: &HostRuntime, program: &Program) -> io::Result<()> {
    println!(rt; "the wiring")?;
    for (k, node) in program.nodes().iter().enumerate() {
        println!(rt; "  node {k}: {}", InWords(*node, program.coefficients()))?;
    }
    let output = program.output();
    println!(rt; "  the output is node {output}")?;
    for (r, source) in program.sources().iter().enumerate() {
        println!(rt; "  then register {r} takes node {source}")?;
    }
    Ok(())
}

// A sample, its output and the registers after it.
pub fn print_step(
    rt: &HostRuntime,
    sample: i32,
    output: Enclosed,
    registers: &[Enclosed],
) -> io::Result<()> {
    print!(rt;
        "  sample {sample}: output {}, ends {} and {}",
        output.word, output.low, output.high
    )?;
    for (r, value) in registers.iter().enumerate() {
        print!(rt; "; register {r} takes {}", value.word)?;
    }
    println!(rt; "")
}

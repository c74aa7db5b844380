use arithmetic::format::Format;
use arithmetic::overflow::Stop;
use arithmetic::rounding::Floor;
use arithmetic::setting::FixedPoint;
use kinds::refusal::Refusal;
use kinds::values::{Values, Word};
use kinds::words::WordKind;
use std::alloc::{AllocError, Global};
use std::test::Fail;
use wiring::faults::{ProgramFault, RowFault, RunFault, WiringFault};
use wiring::graph::{Filter, Node, Wiring};
use wiring::program::Program;

fn wired(
    heap: Global,
    nodes: &[Node],
    coefficients: usize,
    output: usize,
    sources: &[usize],
) -> Result<Wiring, AllocError> {
    Ok(Wiring {
        nodes: nodes.to_vec(heap)?,
        coefficients,
        output,
        sources: sources.to_vec(heap)?,
    })
}

#[test]
fn counts_come_first(rt: HostRuntime) -> Result<(), Fail> {
    let heap = rt.alloc();
    assert_eq!(rt;
        wired(heap, &[], 18, 9, &[0; 17])?.check(),
        Err(WiringFault::NodeCount)
    );
    assert_eq!(rt;
        wired(heap, &[Node::Sum(0, 0); 65], 0, 0, &[])?.check(),
        Err(WiringFault::NodeCount)
    );
    assert_eq!(rt;
        wired(heap, &[Node::Sum(0, 0)], 18, 9, &[9; 17])?.check(),
        Err(WiringFault::RegisterCount)
    );
    assert_eq!(rt;
        wired(heap, &[Node::Sum(0, 0)], 18, 9, &[9; 16])?.check(),
        Err(WiringFault::CoefficientCount)
    );
    assert_eq!(rt;
        wired(heap, &[Node::Input; 64], 17, 63, &[63; 16])?.check(),
        Ok(())
    );
    Ok(())
}

#[test]
fn names_come_before_ends(rt: HostRuntime) -> Result<(), Fail> {
    let heap = rt.alloc();
    assert_eq!(rt;
        wired(heap, &[Node::Sum(0, 0)], 0, 9, &[9])?.check(),
        Err(WiringFault::NotEarlier(0))
    );
    assert_eq!(rt;
        wired(heap, &[Node::Input, Node::Difference(0, 1)], 0, 0, &[])?.check(),
        Err(WiringFault::NotEarlier(1))
    );
    assert_eq!(rt;
        wired(heap, &[Node::Input, Node::Register(1)], 0, 0, &[0])?.check(),
        Err(WiringFault::NoRegister(1))
    );
    let scale = Node::Scale {
        node: 0,
        coefficient: 1,
    };
    assert_eq!(rt;
        wired(heap, &[Node::Input, scale], 1, 0, &[])?.check(),
        Err(WiringFault::NoCoefficient(1))
    );
    assert_eq!(rt;
        wired(heap, &[scale], 1, 0, &[])?.check(),
        Err(WiringFault::NotEarlier(0))
    );
    assert_eq!(rt;
        wired(heap, &[Node::Input], 0, 1, &[1])?.check(),
        Err(WiringFault::NoOutput)
    );
    assert_eq!(rt;
        wired(heap, &[Node::Input], 0, 0, &[0, 1])?.check(),
        Err(WiringFault::NoSource(1))
    );
    Ok(())
}

// The fault of a program in format 4.4 with one coefficient.
fn program_fault(heap: Global, coefficients: &[i32]) -> Result<Option<ProgramFault>, Fail> {
    let format = Format::new(4, 4)?;
    let filter = Filter {
        wiring: wired(heap, &[Node::Input], 1, 0, &[])?,
        coefficients: coefficients.to_vec(heap)?,
    };
    Ok(Program::new(&format, filter).err())
}

#[test]
fn coefficients_are_words(rt: HostRuntime) -> Result<(), Fail> {
    let heap = rt.alloc();
    assert_eq!(rt; program_fault(heap, &[])?, Some(ProgramFault::OtherLength));
    assert_eq!(rt;
        program_fault(heap, &[128, 128])?,
        Some(ProgramFault::OtherLength)
    );
    assert_eq!(rt;
        program_fault(heap, &[128])?,
        Some(ProgramFault::Coefficient(0))
    );
    assert_eq!(rt; program_fault(heap, &[127])?, None);
    assert_eq!(rt; program_fault(heap, &[-128])?, None);
    Ok(())
}

// Two registers in a row behind the input; the sum of all three; the rule stops at an overflow.
fn delays(heap: Global) -> Result<Program, Fail> {
    let nodes = [
        Node::Input,
        Node::Register(0),
        Node::Register(1),
        Node::Sum(0, 1),
        Node::Sum(3, 2),
    ];
    let filter = Filter {
        wiring: wired(heap, &nodes, 0, 4, &[0, 1])?,
        coefficients: Vec::new(heap),
    };
    Ok(Program::new(&Format::new(4, 4)?, filter)?)
}

fn values() -> Result<Values<WordKind, Floor, Stop>, Fail> {
    Ok(Values {
        kind: WordKind,
        setting: FixedPoint {
            format: Format::new(4, 4)?,
            rounding: Floor,
            overflow: Stop,
        },
    })
}

fn word(word: i32) -> Word {
    Word { word }
}

#[test]
fn registers_move_together(rt: HostRuntime) -> Result<(), Fail> {
    let program = delays(rt.alloc())?;
    let mut registers = [word(5), word(7), word(9)];
    let mut working = [word(1); 6];
    program.work(&values()?, &registers, &mut working, 100)?;
    assert_eq!(rt;
        [working[3], working[4], working[5]],
        [word(105), word(112), word(1)]
    );
    program.take_registers(&mut registers, &working)?;
    assert_eq!(rt; registers, [word(100), word(5), word(9)]);
    Ok(())
}

#[test]
fn a_refused_node_leaves_zeros(rt: HostRuntime) -> Result<(), Fail> {
    let program = delays(rt.alloc())?;
    let registers = [word(27), word(0)];
    let mut working = [word(1); 6];
    let told = program.work(&values()?, &registers, &mut working, 100);
    assert_eq!(rt; told, Ok(()));
    let registers = [word(28), word(0)];
    let told = program.work(&values()?, &registers, &mut working, 100);
    assert_eq!(rt; told, Err(RunFault::Node(3, Refusal::Overflow)));
    assert_eq!(rt;
        [working[0], working[4], working[5]],
        [word(0), word(0), word(1)]
    );
    Ok(())
}

#[test]
fn short_rows_are_refused(rt: HostRuntime) -> Result<(), Fail> {
    let program = delays(rt.alloc())?;
    let mut short = [word(3)];
    let mut working = [word(1); 4];
    let told = program.work(&values()?, &short, &mut working, 100);
    assert_eq!(rt; told, Err(RunFault::Row(RowFault::Registers)));
    assert_eq!(rt; working[0], word(1));
    let long = [word(3); 2];
    let told = program.work(&values()?, &long, &mut working, 100);
    assert_eq!(rt; told, Err(RunFault::Row(RowFault::Working)));
    assert_eq!(rt;
        program.zero_registers(&values()?, &mut short),
        Err(RunFault::Row(RowFault::Registers))
    );
    assert_eq!(rt; short, [word(3)]);
    Ok(())
}

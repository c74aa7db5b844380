use arithmetic::overflow::Stop;
use arithmetic::rounding::TowardZero;
use arithmetic::setting::Setting;
use channel::channel::Channel;
use channel::fault::CallFault;
use channel::opening::OpenFault;
use channel::state::{Limits, State};
use kinds::refusal::Refusal;
use kinds::values::Word;
use kinds::words::WordKind;
use std::alloc::{AllocError, Global};
use std::test::Fail;
use wiring::graph::{Filter, Node, Wiring};

// A wall panel in direct form 1: y = b0 × u - a1 × y1.
fn panel(heap: Global, output: usize, feedback: usize) -> Result<Wiring, AllocError> {
    let nodes = [
        Node::Input,
        Node::Register(0),
        Node::Scale {
            node: 0,
            coefficient: 0,
        },
        Node::Scale {
            node: 1,
            coefficient: feedback,
        },
        Node::Difference(2, 3),
    ];
    Ok(Wiring {
        nodes: nodes.to_vec(heap)?,
        coefficients: 2,
        output,
        sources: [4usize].to_vec(heap)?,
    })
}

const NINE: Word = Word { word: 9 };

fn word(word: i32) -> Word {
    Word { word }
}

type Panel = Channel<WordKind, TowardZero, Stop>;

// The panel's channel, with so many fraction bits.
fn open(
    fraction: u32,
    wiring: Wiring,
    coefficients: Vec<i32>,
    row: &mut [Word],
    limits: Option<Limits>,
) -> Result<Panel, OpenFault> {
    let setting = Setting {
        whole: 4,
        fraction,
        rounding: TowardZero,
        overflow: Stop,
    };
    let filter = Filter {
        wiring,
        coefficients,
    };
    Channel::open(WordKind, &setting, filter, row, limits)
}

fn settling(count: u64) -> Option<Limits> {
    Some(Limits { range: 64, count })
}

// The number by which open refuses, where it does.
fn refused(fraction: u32, wiring: Wiring, coefficients: Vec<i32>, row: &mut [Word]) -> Option<u32> {
    let fault = open(fraction, wiring, coefficients, row, None).err()?;
    Some(fault.number())
}

#[test]
fn open_refuses_and_leaves_the_row(rt: HostRuntime) -> Result<(), Fail> {
    let heap = rt.alloc();
    let mut row = [NINE, NINE];
    let list = [8, -8];
    assert_eq!(rt;
        refused(3, panel(heap, 4, 1)?, list.to_vec(heap)?, &mut row),
        Some(6)
    );
    let mut bare = panel(heap, 4, 1)?;
    bare.nodes = Vec::new(heap);
    assert_eq!(rt; refused(4, bare, list.to_vec(heap)?, &mut row), Some(12));
    assert_eq!(rt;
        refused(4, panel(heap, 4, 2)?, list.to_vec(heap)?, &mut row),
        Some(13)
    );
    assert_eq!(rt;
        refused(4, panel(heap, 5, 1)?, list.to_vec(heap)?, &mut row),
        Some(14)
    );
    assert_eq!(rt;
        refused(4, panel(heap, 4, 1)?, [8].to_vec(heap)?, &mut row),
        Some(17)
    );
    assert_eq!(rt;
        refused(4, panel(heap, 4, 1)?, [8, 128].to_vec(heap)?, &mut row),
        Some(9)
    );
    assert_eq!(rt;
        refused(4, panel(heap, 4, 1)?, list.to_vec(heap)?, &mut []),
        Some(15)
    );
    assert_eq!(rt; row, [NINE, NINE]);
    assert_eq!(rt;
        refused(4, panel(heap, 4, 1)?, list.to_vec(heap)?, &mut row),
        None
    );
    assert_eq!(rt; row, [word(0), NINE]);
    Ok(())
}

#[test]
fn feed_refuses_and_leaves_the_registers(rt: HostRuntime) -> Result<(), Fail> {
    let heap = rt.alloc();
    let mut row = [NINE, NINE];
    let mut working = [NINE; 6];
    let mut channel = open(
        4,
        panel(heap, 4, 1)?,
        [8, 127].to_vec(heap)?,
        &mut row,
        settling(6),
    )?;
    assert_eq!(rt; channel.feed(&mut row, &mut working, 64), Ok(word(32)));
    assert_eq!(rt;
        channel.feed(&mut [], &mut working, 128),
        Err(CallFault::RegisterRow)
    );
    assert_eq!(rt;
        channel.feed(&mut row, &mut [NINE; 4], 128),
        Err(CallFault::WorkingRow)
    );
    assert_eq!(rt;
        channel.feed(&mut row, &mut working, 128),
        Err(CallFault::Sample)
    );
    assert_eq!(rt;
        [working[3], working[4], working[5]],
        [word(0), word(32), NINE]
    );
    assert_eq!(rt;
        channel.feed(&mut row, &mut working, 0),
        Err(CallFault::Node(3, Refusal::Overflow))
    );
    assert_eq!(rt;
        [working[0], working[4], working[5]],
        [word(0), word(0), NINE]
    );
    assert_eq!(rt; row, [word(32), NINE]);
    assert_eq!(rt; channel.watch(), Some(State::Sounding));
    Ok(())
}

#[test]
fn swap_keeps_the_registers_and_lapses(rt: HostRuntime) -> Result<(), Fail> {
    let heap = rt.alloc();
    let mut row = [NINE, NINE];
    let mut working = [NINE; 5];
    let mut channel = open(
        4,
        panel(heap, 4, 1)?,
        [8, -8].to_vec(heap)?,
        &mut row,
        settling(6),
    )?;
    assert_eq!(rt; channel.feed(&mut row, &mut working, 64), Ok(word(32)));
    assert_eq!(rt; channel.swap(&[8]), Err(CallFault::OtherLength));
    assert_eq!(rt; channel.swap(&[8, -129]), Err(CallFault::Coefficient(1)));
    assert_eq!(rt; channel.watch(), Some(State::Sounding));
    assert_eq!(rt; channel.swap(&[8, -8]), Ok(()));
    assert_eq!(rt; (row[0], channel.watch()), (word(32), Some(State::Lapsed)));
    assert_eq!(rt; channel.hush(&mut row), Ok(()));
    assert_eq!(rt; (row[0], channel.watch()), (word(0), Some(State::Lapsed)));
    Ok(())
}

#[test]
fn hush_zeroes_and_settles(rt: HostRuntime) -> Result<(), Fail> {
    let heap = rt.alloc();
    let mut row = [NINE, NINE];
    let mut working = [NINE; 5];
    let mut channel = open(
        4,
        panel(heap, 4, 1)?,
        [8, -8].to_vec(heap)?,
        &mut row,
        settling(6),
    )?;
    assert_eq!(rt; channel.feed(&mut row, &mut working, -65), Ok(word(-32)));
    assert_eq!(rt; channel.watch(), Some(State::Spoilt));
    assert_eq!(rt; channel.hush(&mut []), Err(CallFault::RegisterRow));
    assert_eq!(rt; (row[0], channel.watch()), (word(-32), Some(State::Spoilt)));
    assert_eq!(rt; channel.hush(&mut row), Ok(()));
    assert_eq!(rt; row, [word(0), NINE]);
    assert_eq!(rt; channel.watch(), Some(State::Settled));
    Ok(())
}

#[test]
fn no_zeros_or_one_to_settle(rt: HostRuntime) -> Result<(), Fail> {
    let heap = rt.alloc();
    let mut row = [NINE];
    let mut working = [NINE; 5];
    let mut channel = open(
        4,
        panel(heap, 4, 1)?,
        [8, -8].to_vec(heap)?,
        &mut row,
        settling(0),
    )?;
    assert_eq!(rt; channel.feed(&mut row, &mut working, 5), Ok(word(2)));
    assert_eq!(rt; channel.watch(), Some(State::Settled));
    let mut channel = open(
        4,
        panel(heap, 4, 1)?,
        [8, -8].to_vec(heap)?,
        &mut row,
        settling(1),
    )?;
    assert_eq!(rt; channel.feed(&mut row, &mut working, 5), Ok(word(2)));
    assert_eq!(rt; channel.watch(), Some(State::Sounding));
    assert_eq!(rt; channel.feed(&mut row, &mut working, 0), Ok(word(1)));
    assert_eq!(rt; channel.watch(), Some(State::Settled));
    let mut channel = open(4, panel(heap, 4, 1)?, [8, -8].to_vec(heap)?, &mut row, None)?;
    assert_eq!(rt; channel.feed(&mut row, &mut working, 5), Ok(word(2)));
    assert_eq!(rt; channel.watch(), None);
    Ok(())
}

#[test]
fn a_refused_swap_keeps_the_coefficients(rt: HostRuntime) -> Result<(), Fail> {
    let heap = rt.alloc();
    let mut row = [NINE];
    let mut working = [NINE; 5];
    let mut channel = open(
        4,
        panel(heap, 4, 1)?,
        [8, -8].to_vec(heap)?,
        &mut row,
        settling(6),
    )?;
    assert_eq!(rt; channel.watch(), Some(State::Settled));
    assert_eq!(rt; channel.swap(&[8]), Err(CallFault::OtherLength));
    assert_eq!(rt; channel.swap(&[127, 128]), Err(CallFault::Coefficient(1)));
    assert_eq!(rt; channel.feed(&mut row, &mut working, 64), Ok(word(32)));
    assert_eq!(rt; channel.feed(&mut row, &mut working, 0), Ok(word(16)));
    Ok(())
}

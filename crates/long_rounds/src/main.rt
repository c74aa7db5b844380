// A filter without damping and without input: no peak rises, but each round adds to the ceiling, until it is refused after about 33 million rounds.
#![tactic(auto)]

use arithmetic::overflow::Wrap;
use arithmetic::rounding::TowardZero;
use arithmetic::setting::Setting;
use sheet::sheet::sheet;
use std::alloc::{AllocError, Global};
use std::io;
use wiring::graph::{Filter, Node, Wiring};

// y = u + y1, in direct form 1.
fn undamped(heap: Global) -> Result<Wiring, AllocError> {
    let nodes = [
        Node::Input,
        Node::Register(0),
        Node::Scale {
            node: 0,
            coefficient: 0,
        },
        Node::Scale {
            node: 1,
            coefficient: 1,
        },
        Node::Difference(2, 3),
    ];
    Ok(Wiring {
        nodes: nodes.to_vec(heap)?,
        coefficients: 2,
        output: 4,
        sources: [4usize].to_vec(heap)?,
    })
}

fn main(rt: HostRuntime) -> io::Result<()> {
    let heap = rt.alloc();
    let setting = Setting {
        whole: 4,
        fraction: 4,
        rounding: TowardZero,
        overflow: Wrap,
    };
    let answer = sheet(
        &setting,
        Filter {
            wiring: undamped(heap)?,
            coefficients: [16, -16].to_vec(heap)?,
        },
        0,
        &mut [0],
        &mut [0],
        &mut [0],
    );
    println!(rt; "{:?}", answer)
}

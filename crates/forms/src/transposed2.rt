ghost use Rattle.std.specs.Prelude.{◌≡◌, ◌-◌, ◌≤◌, length, IfOk};
ghost use Rattle.wiring.specs.Graphs.{graph_of};
ghost use Rattle.forms.specs.Forms.{transposed2 as transposed2_graph, transposed2_gain};

use crate::coefficients::Coefficients;
use crate::parts::{add_gains, start};
use crate::totals::add_totals;
use std::alloc::{AllocError, Global};
use wiring::graph::{Node, Wiring};

// One coefficient and no register: the output is its product with the input.
fn gain(heap: Global) -> Result<Wiring, AllocError>
    ensures { IfOk result (λ w. graph_of w ≡ transposed2_gain) }
{
    let mut nodes = start(heap, 0)?;
    nodes.push(Node::Scale {
        node: 0,
        coefficient: 0,
    })?;
    Ok(Wiring {
        nodes,
        coefficients: 1,
        output: 1,
        sources: Vec::new(heap),
    })
}

// Transposed form 2: each register takes a total, which starts at the register behind it.
pub(crate) fn transposed2(heap: Global, lists: Coefficients) -> Result<Wiring, AllocError>
    ensures { IfOk result (λ w. graph_of w ≡ transposed2_graph (length lists.entry.b.now - 1) (length lists.entry.a.now)) }
{
    let Coefficients { b, a } = lists;
    let order = lists.longer().len();
    if order == 0 {
        return gain(heap);
    }
    let mut nodes = start(heap, order)?;
    nodes.push(Node::Zero)?;
    let products = nodes.len();
    add_gains(&mut nodes, 0, 0, b)?;
    let output = nodes.len();
    nodes.push(Node::Sum(products, 1))?;
    add_gains(&mut nodes, output, b.len(), a)?;
    let mut sources = Vec::new(heap);
    add_totals(&mut nodes, &mut sources, products + 1, output + 1, lists)?;
    Ok(Wiring {
        nodes,
        coefficients: lists.count(),
        output,
        sources,
    })
}

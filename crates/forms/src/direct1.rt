ghost use Rattle.std.specs.Prelude.{◌≡◌, ◌-◌, length, IfOk};
ghost use Rattle.wiring.specs.Graphs.{graph_of};
ghost use Rattle.forms.specs.Forms.{direct1 as direct1_graph};

use crate::coefficients::Coefficients;
use crate::parts::{Chain, add_delays, add_running_totals, add_taps, start};
use std::alloc::{AllocError, Global};
use wiring::graph::{Node, Wiring};

// Direct form 1: the registers hold delayed inputs, then delayed outputs.
#[tactic(auto, using(crate::proofs::Layouts::start_length))]
pub(crate) fn direct1(heap: Global, lists: Coefficients) -> Result<Wiring, AllocError>
    ensures { IfOk result (λ w. graph_of w ≡ direct1_graph (length lists.entry.b.now - 1) (length lists.entry.a.now)) }
{
    let Coefficients { b, a } = lists;
    let later = lists.later();
    let mut nodes = start(heap, later.len() + a.len())?;
    let products = nodes.len();
    let inputs = Chain { from: 0, place: 1 };
    add_taps(&mut nodes, inputs, 0, b)?;
    let past_outputs = Chain {
        from: b.len(),
        place: b.len() + 1,
    };
    add_taps(&mut nodes, past_outputs, b.len(), a)?;
    let sum = add_running_totals(&mut nodes, products, products + 1, later, Node::Sum)?;
    let output = add_running_totals(&mut nodes, sum, products + b.len(), a, Node::Difference)?;
    let outputs = Chain {
        from: output,
        place: b.len(),
    };
    let mut sources = Vec::new(heap);
    add_delays(&mut sources, inputs, later)?;
    add_delays(&mut sources, outputs, a)?;
    Ok(Wiring {
        nodes,
        coefficients: lists.count(),
        output,
        sources,
    })
}

ghost use Rattle.std.specs.Prelude.{◌≡◌, ◌-◌, length, IfOk};
ghost use Rattle.wiring.specs.Graphs.{graph_of};
ghost use Rattle.forms.specs.Forms.{direct2 as direct2_graph};

use crate::coefficients::Coefficients;
use crate::parts::{Chain, add_delays, add_running_totals, add_taps, start};
use std::alloc::{AllocError, Global};
use wiring::graph::{Node, Wiring};

// Direct form 2: one delay line, from which both the feedback and the output are taken.
#[tactic(auto, using(crate::proofs::Layouts::start_length))]
pub(crate) fn direct2(heap: Global, lists: Coefficients) -> Result<Wiring, AllocError>
    ensures { IfOk result (λ w. graph_of w ≡ direct2_graph (length lists.entry.b.now - 1) (length lists.entry.a.now)) }
{
    let Coefficients { b, a } = lists;
    let longer = lists.longer();
    let mut nodes = start(heap, longer.len())?;
    let feedback = nodes.len();
    let past = Chain { from: 1, place: 2 };
    add_taps(&mut nodes, past, b.len(), a)?;
    let middle = add_running_totals(&mut nodes, 0, feedback, a, Node::Difference)?;
    let line = Chain {
        from: middle,
        place: 1,
    };
    let products = nodes.len();
    add_taps(&mut nodes, line, 0, b)?;
    let output = add_running_totals(&mut nodes, products, products + 1, lists.later(), Node::Sum)?;
    let mut sources = Vec::new(heap);
    add_delays(&mut sources, line, longer)?;
    Ok(Wiring {
        nodes,
        coefficients: lists.count(),
        output,
        sources,
    })
}

ghost use Rattle.std.specs.Prelude.{◌≡◌, ℕ, ◌+◌, ◌^◌, ◌<◌, ◌∷◌, ◌++◌, length, IfOk, vec_len, OnOk};
ghost use Rattle.wiring.specs.declared.graph.Node.{Node as NodeValue};
ghost use Rattle.wiring.specs.declared.graph.Node.TheVariants.{Input};
ghost use Rattle.forms.specs.Parts.{listed, GivesBelow, Gives, chain as node_of_chain, registers as register_nodes, chained, taps, gains, delays};

use std::alloc::{AllocError, Global};
use wiring::graph::Node;

// A chain of nodes: node `from`, then the nodes from number `place` on.
#[derive(Clone, Copy)]
pub(crate) struct Chain {
    pub(crate) from: usize,
    pub(crate) place: usize,
}

impl Chain {
    // Its i-th node.
    pub(crate) fn node(self, i: usize) -> usize
        requires { self.place + i < 2 ^ 64 }
        ensures { result ≡ node_of_chain self.from self.place i }
    {
        if i == 0 {
            self.from
        } else {
            self.place + (i - 1)
        }
    }
}

// The input and so many registers.
pub(crate) fn start(heap: Global, registers: usize) -> Result<Vec<Node>, AllocError>
    ensures { IfOk result (λ nodes. nodes.items ≡ Input ∷ register_nodes registers) }
{
    let mut nodes = Vec::new(heap);
    nodes.push(Node::Input)?;
    nodes.extend((0..registers).map(Node::Register))?;
    Ok(nodes)
}

// Adds an entry for each coefficient, made from its index.
fn add_row<T: Drop, F: Fn(usize) -> T>(
    row: &mut Vec<T>,
    coefficients: &[i32],
    make: F,
) -> Result<(), AllocError>
    requires { (i : ℕ) → i < length coefficients.now → F.pre make i }
    ensures { (f : ℕ → T) → GivesBelow (length coefficients.now) (F.post make) f → OnOk result (row.new.items ≡ row.old.items ++ listed f (length coefficients.now)) }
{
    // A loop and not `extend`: a rule of the project wants loops over the coefficients' elements with their index here.
    for (i, _) in coefficients.iter().enumerate() {
        row.push(make(i))?;
    }
    Ok(())
}

// Each coefficient times the node of a chain at its place.
pub(crate) fn add_taps(
    nodes: &mut Vec<Node>,
    chain: Chain,
    number: usize,
    coefficients: &[i32],
) -> Result<(), AllocError>
    requires places { chain.place + length coefficients.now < 2 ^ 32 }
    requires numbers { number + length coefficients.now < 2 ^ 32 }
    ensures { OnOk result (nodes.new.items ≡ nodes.old.items ++ taps chain.from chain.place number (length coefficients.now)) }
{
    add_row(
        nodes,
        coefficients,
        |i| Node::Scale {
            node: chain.node(i),
            coefficient: number + i,
        },
    )
}

// Each coefficient times the same node.
pub(crate) fn add_gains(
    nodes: &mut Vec<Node>,
    node: usize,
    number: usize,
    coefficients: &[i32],
) -> Result<(), AllocError>
    requires { number + length coefficients.now < 2 ^ 32 }
    ensures { OnOk result (nodes.new.items ≡ nodes.old.items ++ gains node number (length coefficients.now)) }
{
    add_row(
        nodes,
        coefficients,
        |i| Node::Scale {
            node,
            coefficient: number + i,
        },
    )
}

// The sources of a delay line with a register for each coefficient: each takes the node of the chain at its place.
pub(crate) fn add_delays(
    sources: &mut Vec<usize>,
    chain: Chain,
    coefficients: &[i32],
) -> Result<(), AllocError>
    requires { chain.place + length coefficients.now < 2 ^ 32 }
    ensures { OnOk result (sources.new.items ≡ sources.old.items ++ delays chain.from chain.place (length coefficients.now)) }
{
    add_row(sources, coefficients, |i| chain.node(i))
}

// Totals in turn: to node `start` the products of the coefficients, which are nodes from number `first` on, are added or
// subtracted one by one. Answers the last total's number.
pub(crate) fn add_running_totals<F: Fn(usize, usize) -> Node>(
    nodes: &mut Vec<Node>,
    start: usize,
    first: usize,
    coefficients: &[i32],
    make: F,
) -> Result<usize, AllocError>
    requires numbers { first + length coefficients.now < 2 ^ 32 }
    requires makes { F.IsAlwaysCallable make }
    ensures { (op : ℕ → ℕ → NodeValue) → Gives (F.post make) op → IfOk result (λ total. (nodes.new.items ≡ nodes.old.items ++ chained op start (vec_len nodes.old) first (length coefficients.now)) × (total ≡ node_of_chain start (vec_len nodes.old) (length coefficients.now))) }
{
    let totals = Chain {
        from: start,
        place: nodes.len(),
    };
    add_row(nodes, coefficients, |i| make(totals.node(i), first + i))?;
    Ok(totals.node(coefficients.len()))
}

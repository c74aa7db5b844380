ghost use Rattle.std.specs.Prelude.{◌≡◌, length, Ok};
ghost use Rattle.wiring.specs.Graphs.{graph_of};
ghost use Rattle.wiring.specs.Checks.{node_fault, nodes_fault, sources_fault, wiring_fault, counts_fault};
ghost use Rattle.wiring.specs.Programs.{words_fault, list_fault};
ghost use Rattle.wiring.specs.Runs.{or_fault};
ghost use Rattle.arithmetic.specs.Formats.{width};

use crate::faults::{ProgramFault, WiringFault};
use crate::graph::{Node, Wiring};
use crate::limits::{MAX_COEFFICIENTS, MAX_NODES, MAX_REGISTERS};
use arithmetic::format::Format;

impl Node {
    // Whether this node, as the k-th of a wiring with so many registers and coefficients, names only what is there.
    fn check(self, registers: usize, coefficients: usize, k: usize) -> Result<(), WiringFault>
        ensures { result ≡ or_fault (node_fault registers coefficients k self) (Ok tt) }
    {
        match self {
            Node::Register(r) if r >= registers => Err(WiringFault::NoRegister(k)),
            Node::Scale { node, .. } if node >= k => Err(WiringFault::NotEarlier(k)),
            Node::Scale { coefficient, .. } if coefficient >= coefficients => {
                Err(WiringFault::NoCoefficient(k))
            }
            Node::Sum(p, q) | Node::Difference(p, q) if p >= k || q >= k => {
                Err(WiringFault::NotEarlier(k))
            }
            _ => Ok(()),
        }
    }
}

// Whether every node names only what is there and earlier; refused by the first that doesn't.
fn check_nodes(registers: usize, coefficients: usize, nodes: &[Node]) -> Result<(), WiringFault>
    ensures { result ≡ or_fault (nodes_fault registers coefficients nodes.now) (Ok tt) }
{
    for (k, node) in nodes.iter().enumerate() {
        node.check(registers, coefficients, k)?;
    }
    Ok(())
}

// Whether every register's source is a node; refused by the first that isn't.
fn check_sources(nodes: usize, sources: &[usize]) -> Result<(), WiringFault>
    ensures { result ≡ or_fault (sources_fault nodes sources.now) (Ok tt) }
{
    for (r, source) in sources.iter().enumerate() {
        if *source >= nodes {
            return Err(WiringFault::NoSource(r));
        }
    }
    Ok(())
}

impl Wiring {
    // Whether the counts are within limits.
    fn check_counts(&self) -> Result<(), WiringFault>
        ensures { result ≡ or_fault (counts_fault (graph_of self.now)) (Ok tt) }
    {
        if self.nodes.len() < 1 || self.nodes.len() > MAX_NODES {
            return Err(WiringFault::NodeCount);
        }
        if self.sources.len() > MAX_REGISTERS {
            return Err(WiringFault::RegisterCount);
        }
        if self.coefficients > MAX_COEFFICIENTS {
            return Err(WiringFault::CoefficientCount);
        }
        Ok(())
    }

    // Whether nothing is wrong with the wiring; refused by the first thing that is.
    pub fn check(&self) -> Result<(), WiringFault>
        ensures { result ≡ or_fault (wiring_fault (graph_of self.now)) (Ok tt) }
    {
        self.check_counts()?;
        check_nodes(self.sources.len(), self.coefficients, &self.nodes)?;
        if self.output >= self.nodes.len() {
            return Err(WiringFault::NoOutput);
        }
        check_sources(self.nodes.len(), &self.sources)
    }
}

// Whether every coefficient is a word of the format; refused by the first that isn't.
fn check_words(format: &Format, coefficients: &[i32]) -> Result<(), ProgramFault>
    ensures { result ≡ or_fault (words_fault (width format.now) coefficients.now) (Ok tt) }
{
    for (i, c) in coefficients.iter().enumerate() {
        if !format.holds(*c) {
            return Err(ProgramFault::Coefficient(i));
        }
    }
    Ok(())
}

// Whether a coefficient list serves a wiring of so many, or what is wrong with it.
pub fn check_list(format: &Format, count: usize, coefficients: &[i32]) -> Result<(), ProgramFault>
    ensures { result ≡ or_fault (list_fault (width format.now) count coefficients.now) (Ok tt) }
{
    if coefficients.len() != count {
        return Err(ProgramFault::OtherLength);
    }
    check_words(format, coefficients)
}

//! Wirings, read and shown.
use crate::fault::Fault;
use crate::numbers::{number, read_items, read_list, read_number};
use crate::show::List;
use std::alloc::Global;
use std::fmt;
use wiring::graph::{Node, Wiring};

// Two numbers with a point between them.
fn pair(text: &str) -> Option<(usize, usize)> {
    let (first, second) = text.split_once('.')?;
    Some((number(first)?, number(second)?))
}

// The node of a text.
fn node(text: &str) -> Option<Node> {
    if text == "i" {
        return Some(Node::Input);
    }
    if text == "z" {
        return Some(Node::Zero);
    }
    if let Some(register) = text.strip_prefix('r') {
        return Some(Node::Register(number(register)?));
    }
    if let Some(parts) = text.strip_prefix('s') {
        let (node, coefficient) = pair(parts)?;
        return Some(Node::Scale { node, coefficient });
    }
    if let Some(parts) = text.strip_prefix('a') {
        let (p, q) = pair(parts)?;
        return Some(Node::Sum(p, q));
    }
    let (p, q) = pair(text.strip_prefix('d')?)?;
    Some(Node::Difference(p, q))
}

/// The wiring of a field.
pub fn read_wiring(heap: Global, text: &str) -> Result<Wiring, Fault> {
    let parts: Vec<&str> = text.split('/').collect(heap)?;
    let [coefficients, output, sources, nodes] = parts.as_slice() else {
        return Err(Fault::Unread);
    };
    Ok(Wiring {
        nodes: read_items(heap, nodes, |part| node(part).ok_or(Fault::Unread))?,
        coefficients: read_number(coefficients)?,
        output: read_number(output)?,
        sources: read_list(heap, sources)?,
    })
}

/// A wiring, shown as it is read.
#[derive(Drop)]
pub struct Drawn<'a>(pub &'a Wiring);

impl fmt::Display for Drawn<'_> {
    fn fmt<W: fmt::Write>(&self, f: &mut fmt::Formatter<W>) -> fmt::Result {
        let coefficients = self.0.coefficients;
        let output = self.0.output;
        let sources = List(self.0.sources.as_slice());
        let nodes = List(self.0.nodes.as_slice());
        write!(f, "{coefficients}/{output}/{sources}/{nodes}")
    }
}

// One node of a wiring. Nodes, registers and coefficients are named by their numbers, from 0: users write them so, and refusals tell them.
#[derive(Clone, Copy, PartialEq, Eq, Debug)]
pub enum Node {
    // The sample.
    Input,
    Zero,
    // What a register held before the sample came.
    Register(usize),
    // An earlier node times a coefficient.
    Scale { node: usize, coefficient: usize },
    Sum(usize, usize),
    // The first node less the second.
    Difference(usize, usize),
}

// A wiring as a user hands it in, unchecked.
#[derive(Drop)]
pub struct Wiring {
    pub nodes: Vec<Node>,
    // How many coefficients.
    pub coefficients: usize,
    // The node whose value is the output.
    pub output: usize,
    // For each register, the node whose value it takes.
    pub sources: Vec<usize>,
}

// A wiring with its coefficients, as a user hands them in, unchecked.
#[derive(Drop)]
pub struct Filter {
    pub wiring: Wiring,
    pub coefficients: Vec<i32>,
}

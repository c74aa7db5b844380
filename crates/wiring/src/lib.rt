// Wirings: nodes, registers and coefficients, their check, and the one runner that works them over any kind of value.
#![tactic(auto)]

pub mod check;
pub mod faults;
pub mod graph;
pub mod limits;
pub mod make;
pub mod program;
mod run;
pub mod work;

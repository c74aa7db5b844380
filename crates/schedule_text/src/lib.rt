//! The schedule of a materials file: for each material, whether it has a sheet and which figures.
#![tactic(auto)]

pub mod line;
pub mod material;
pub mod outcome;
pub mod program;
pub mod schedule;

// The three usual forms of a recursive filter, built as wirings from its coefficients.
#![tactic(auto)]

pub mod build;
mod coefficients;
mod direct1;
mod direct2;
pub mod form;
mod parts;
mod totals;
mod transposed2;

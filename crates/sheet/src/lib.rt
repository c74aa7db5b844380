// Sheets: the smallest closed box of a wiring, with its output figures, settling count and band.
#![tactic(auto)]

pub mod figures;
mod round;
mod rounds;
mod rows;
mod search;
pub mod sheet;

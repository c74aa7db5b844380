//! The materials file: named filter records that are read from bytes, looked up and written.
#![tactic(auto)]

pub mod check;
pub mod coefficients;
pub mod directory;
pub mod fields;
pub mod letters;
pub mod list;
pub mod look_up;
pub mod part;
pub mod read;
pub mod record;
pub mod refusal;
pub mod round_trip;
mod same;
pub mod write;

// Fixed-point arithmetic: formats, words, rounding rules and overflow rules.
#![tactic(auto)]

pub mod choice;
pub mod format;
pub mod overflow;
pub mod rounding;
pub mod setting;

// Kinds of value: bare words, words with an error enclosure, and bounds, behind one trait.
#![tactic(auto)]

pub mod bounds;
pub mod enclosures;
pub mod kind;
pub mod refusal;
pub mod values;
pub mod words;

//! Tests of the console's text.
#![tactic(auto)]

#[cfg(test)]
mod tests;

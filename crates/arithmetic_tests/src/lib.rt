// Worked examples of the fixed-point arithmetic.
#![tactic(auto)]

#[cfg(test)]
mod tests;

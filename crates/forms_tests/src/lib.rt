// Small filters in each form, with their nodes worked out by hand.
#![tactic(auto)]

#[cfg(test)]
mod tests;

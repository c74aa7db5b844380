//! Tests of the schedule.
#![tactic(auto)]

#[cfg(test)]
mod tests;

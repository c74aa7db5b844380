//! Tests of the materials file: every refusal, both edges of each limit, and both round trips.
#![tactic(auto)]

#[cfg(test)]
mod builders;
#[cfg(test)]
mod reading;
#[cfg(test)]
mod writing;

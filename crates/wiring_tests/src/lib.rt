// Tests of wirings, programs and the runner.
#![tactic(auto)]

#[cfg(test)]
mod tests;

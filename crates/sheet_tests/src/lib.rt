// Tests of sheets.
#![tactic(auto)]

#[cfg(test)]
mod tests;

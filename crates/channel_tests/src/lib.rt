// Tests of channels and their watch.
#![tactic(auto)]

#[cfg(test)]
mod calls;
#[cfg(test)]
mod watching;

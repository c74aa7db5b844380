// Channels: a filter that runs for years on calls that nobody foresaw, and its watch.
#![tactic(auto)]

pub mod calls;
pub mod channel;
pub mod fault;
pub mod opening;
pub mod state;
mod telling;
pub mod theorem;
pub mod watch;

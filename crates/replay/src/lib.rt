// Lists of calls worked on a channel, with a log of what each left, and the channel theorem on the log's entries.
#![tactic(auto)]

pub mod log;
pub mod replay;
mod work;

//! A console for channels: the lines that are typed, worked as calls of a channel, and the text that answers them.
#![tactic(auto)]

mod call;
pub mod halt;
mod pieces;
pub mod program;
mod record;
mod rows;
mod script;
pub mod session;
pub mod show;
mod text;

//! The command line of kbfeed: its commands with their arguments and helps, and the command that arguments name.
#![tactic(auto)]

mod argument;
mod commands;
mod helps;
mod node;
mod parsing;

pub use parsing::{Usage, name_help, parse};

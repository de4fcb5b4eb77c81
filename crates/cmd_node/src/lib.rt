//! The command `node`, and the function that runs it or any other command on the database of a node.
#![tactic(auto)]

mod command;
mod node;
mod site;
mod token;
mod wanted;

pub use command::run_command;

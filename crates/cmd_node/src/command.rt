//! The function that runs any command on the database of a node.
use crate::node::run_node;
use cmd_database::{Database, run_database_command};
use feed_console::Console;
use feed_options::NodeCommand;
use std::io::Write;

/// Runs a command on a database, prints its output to the console, and returns the exit status. A program calls this
/// function once at its type of databases, since each call at a concrete type takes a minute to prove.
pub fn run_command<D: Database, O: Write, F: Write + Drop>(
    database: &D,
    command: NodeCommand<'_>,
    console: &mut Console<'_, O, F>,
) -> u8 {
    match command {
        NodeCommand::Run(options) => match run_node(database, options, console) {
            Ok(status) | Err(status) => status,
        },
        NodeCommand::Database(command) => run_database_command(database, command, console),
    }
}

//! The commands that need only a database, and the function that runs one.
use crate::ask::print_answer;
use crate::database::Database;
use crate::diff::compare_active;
use crate::export::export_holdings;
use crate::fetch::fetch_release;
use crate::status::print_status;
use crate::why::print_reason;
use feed_console::Console;
use feed_options::DatabaseCommand;
use std::io::Write;

/// Runs a command on a database, prints its output to the console, and returns the exit status.
pub fn run_database_command<D: Database, O: Write, F: Write + Drop>(
    database: &D,
    command: DatabaseCommand<'_>,
    console: &mut Console<'_, O, F>,
) -> u8 {
    match command {
        DatabaseCommand::Fetch(options) => fetch_release(database, options, console),
        DatabaseCommand::Ask { package, query } => {
            print_answer(database, package, query, console)
        }
        DatabaseCommand::Diff { package, options } => {
            compare_active(database, package, options, console)
        }
        DatabaseCommand::Export => export_holdings(database, console),
        DatabaseCommand::Status => print_status(database, console),
        DatabaseCommand::Why { name } => print_reason(database, name, console),
    }
}

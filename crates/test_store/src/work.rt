//! Does the work of a command with the databases that its arguments name.
use crate::database::DriverDatabase;
use crate::steps::take_steps;
use crate::worlds::{load, replay_over};
use std::test::Fail;

/// The work of a command with databases.
#[derive(Clone, Copy)]
pub enum Work<'a> {
    /// Takes the steps in these arguments with a feed over each.
    Steps(&'a [String]),
    /// Prints what a keeper and a feed say of each.
    Load,
    /// Replays the script on standard input, with a node over each.
    Replay,
}

/// Does the work with the databases.
pub fn do_work<D: DriverDatabase>(
    rt: &HostRuntime,
    databases: &[D],
    work: &Work<'_>,
) -> Result<(), Fail> {
    if let Work::Replay = work {
        return replay_over(rt, databases);
    }
    for database in databases {
        match work {
            Work::Steps(arguments) => take_steps(rt, database, arguments)?,
            _ => load(rt, database)?,
        }
    }
    Ok(())
}

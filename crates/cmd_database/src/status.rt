//! `kbfeed status`: the releases that a node has recorded.
use crate::database::{Database, close_keeper, open_existing_feed};
use feed_console::{Console, DONE, FAILED};
use feed_releases::ReleaseStatus;
use std::io;
use std::io::Write;

/// Opens the database and its feed, and prints a line for each release that is recorded, ordered by name: the name,
/// `staged`, `active` or `broken`, the size of the file, how many bytes of it are missing, and the reason of a
/// broken one, with a tab between each two. Returns the exit status: 1 for a database that is not there, not ours or
/// damaged, 3 for a failing device or print and for running out of memory.
pub fn print_status<D: Database, O: Write, F: Write + Drop>(
    database: &D,
    console: &mut Console<'_, O, F>,
) -> u8 {
    let feed = match open_existing_feed(database, console) {
        Ok(feed) => feed,
        Err(status) => return status,
    };
    let status = match feed.statuses() {
        Ok(statuses) => console
            .faults
            .check_print(print_statuses(&mut console.out, &statuses), DONE),
        Err(_) => console.faults.report("Memory", FAILED),
    };
    close_keeper(database, feed.restart(), console);
    status
}

fn print_statuses<O: Write>(out: &mut O, statuses: &[ReleaseStatus<'_>]) -> io::Result<()> {
    for status in statuses {
        status.write_line(out)?;
    }
    out.flush()
}

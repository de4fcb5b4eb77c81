//! `kbfeed why`: why a release of a node is broken.
use crate::database::{Database, close_keeper, open_feed};
use cmd_files::{Advice, parse_meant_name};
use feed_console::{Console, DONE, MISUSED, REFUSED};
use feed_kbart::BadFile;
use std::io::Write;

/// Parses the name, opens the database and its feed, and prints to `out` why the release of the name is broken:
/// `broken` and the reason of its file, or `none` if it is not recorded, not complete, good or passed. The first fault
/// is reported, and then nothing is printed to `out`. Returns the exit status: 1 if `none` is printed and for a
/// database that is not ours or damaged, 2 for an invalid name, 3 for a failing device or print and for running out of
/// memory.
pub fn print_reason<D: Database, O: Write, F: Write + Drop>(
    database: &D,
    name: &str,
    console: &mut Console<'_, O, F>,
) -> u8 {
    let name = match parse_meant_name(name, MISUSED, Advice::Give, console) {
        Ok(name) => name,
        Err(status) => return status,
    };
    if !database.is_there() {
        console.faults.note(
            database.name(),
            "it is not there: kbfeed fetch or kbfeed node makes it",
        );
        return print_line(None, console);
    }
    let feed = match open_feed(database, console) {
        Ok(feed) => feed,
        Err(status) => return status,
    };
    let status = print_line(feed.reason(&name), console);
    close_keeper(database, feed.restart(), console);
    status
}

// Prints the reason, if there is one, and returns the status.
fn print_line<O: Write, F: Write + Drop>(
    reason: Option<BadFile>,
    console: &mut Console<'_, O, F>,
) -> u8 {
    let out = &mut console.out;
    let (line, status) = match reason {
        Some(why) => (writeln!(out, "broken {why}"), DONE),
        None => (writeln!(out, "none"), REFUSED),
    };
    let printed = line.and_then(|()| out.flush());
    console.faults.check_print(printed, status)
}

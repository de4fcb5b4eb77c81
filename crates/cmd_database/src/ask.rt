//! `kbfeed ask`: what a node answers to a query.
use crate::database::{Database, close_keeper, open_existing_feed, report_no_release};
use cmd_files::parse_meant_query;
use feed_answer::{Query, WriteFault};
use feed_console::{Console, DONE, FAILED};
use feed_keep::Keep;
use feed_releases::{AnswerFault, Feed};
use std::io::Write;

/// Parses the query, opens the database and its feed, and prints the feed's answer for the package to `out`. The first
/// fault is reported, and then nothing is printed to `out`. Returns the exit status: 1 for an invalid query, a package
/// without an active release (`NoRelease`), and a database that is not ours or damaged, 3 for a failing device or print
/// and for running out of memory.
pub fn print_answer<D: Database, O: Write, F: Write + Drop>(
    database: &D,
    package: &str,
    query: &str,
    console: &mut Console<'_, O, F>,
) -> u8 {
    let query = match parse_meant_query(query, console) {
        Ok(query) => query,
        Err(status) => return status,
    };
    let feed = match open_existing_feed(database, console) {
        Ok(feed) => feed,
        Err(status) => return status,
    };
    let status = print_feed_answer(&feed, package, &query, console);
    close_keeper(database, feed.restart(), console);
    status
}

fn print_feed_answer<K: Keep, O: Write, F: Write + Drop>(
    feed: &Feed<K>,
    package: &str,
    query: &Query,
    console: &mut Console<'_, O, F>,
) -> u8 {
    let answer = match feed.answer(package.as_bytes(), query) {
        Ok(answer) => answer,
        Err(AnswerFault::Memory) => return console.faults.report(AnswerFault::Memory, FAILED),
        Err(AnswerFault::NoRelease) => return report_no_release(package, console),
    };
    let Some(name) = feed.report(package.as_bytes()) else {
        return report_no_release(package, console);
    };
    match answer.write(&mut console.out, name) {
        Ok(()) => console.faults.check_print(console.out.flush(), DONE),
        Err(WriteFault::Write) => console.faults.report_unprinted(&mut console.out),
    }
}

//! `kbfeed diff --db`: what a new list changes in the release that a node answers from.
use crate::database::{Database, close_keeper, open_existing_feed, report_no_release};
use cmd_files::compare_with;
use cmd_report::NamedList;
use feed_console::{Console, FAILED};
use feed_keep::Keep;
use feed_options::DiffOptions;
use feed_releases::Feed;
use std::io::Write;

/// Opens the database and its feed, and compares a new list with the active release of a package, as `compare_with`
/// does. The first fault is reported, and then nothing is printed to `out`. Returns the exit status: 1 for a database
/// that is not ours or damaged, a package without an active release (`NoRelease`), a new list with an invalid name or
/// one that is bad or too long, and one that passes a bound; 3 for a failing device, read or print and for running out
/// of memory.
pub fn compare_active<D: Database, O: Write, F: Write + Drop>(
    database: &D,
    package: &str,
    options: DiffOptions<'_>,
    console: &mut Console<'_, O, F>,
) -> u8 {
    let feed = match open_existing_feed(database, console) {
        Ok(feed) => feed,
        Err(status) => return status,
    };
    let status = compare_with_feed(&feed, package, options, console);
    close_keeper(database, feed.restart(), console);
    status
}

fn compare_with_feed<K: Keep, O: Write, F: Write + Drop>(
    feed: &Feed<K>,
    package: &str,
    options: DiffOptions<'_>,
    console: &mut Console<'_, O, F>,
) -> u8 {
    let Ok(actives) = feed.actives() else {
        return console.faults.report("Memory", FAILED);
    };
    for active in &actives {
        if active.name().package() == package.as_bytes() {
            let old = NamedList {
                name: active.name(),
                rows: active.holdings().rows(),
                aside: active.holdings().aside(),
            };
            return compare_with(old, options, console);
        }
    }
    report_no_release(package, console)
}

//! `kbfeed export --scholar`: the holdings of a node as the XML of Google Scholar's library links.
use crate::database::{Database, close_keeper, open_existing_feed};
use cmd_scholar::{LeftOut, count_left_out, write_end, write_items, write_start};
use feed_console::{Console, DONE, FAILED};
use feed_keep::Keep;
use feed_releases::{ActiveRelease, Feed};
use std::alloc::Global;
use std::io::Write;
use std::{fmt, io};

/// Opens the database and its feed, and prints the holdings of its active releases to `out`, item by item; without an
/// active release they have no item. The first fault is reported. Notes how many rows are left out, and why. Returns
/// the exit status: 1 for a database that is not there (`NoRelease`), is not ours or is damaged, 3 for a failing device
/// or print and for running out of memory.
pub fn export_holdings<D: Database, O: Write, F: Write + Drop>(
    database: &D,
    console: &mut Console<'_, O, F>,
) -> u8 {
    let feed = match open_existing_feed(database, console) {
        Ok(feed) => feed,
        Err(status) => return status,
    };
    let status = export_feed(&feed, database.name(), console);
    close_keeper(database, feed.restart(), console);
    status
}

fn export_feed<K: Keep, O: Write, F: Write + Drop>(
    feed: &Feed<K>,
    database: &str,
    console: &mut Console<'_, O, F>,
) -> u8 {
    let Ok(actives) = feed.actives() else {
        return console.faults.report("Memory", FAILED);
    };
    note_left_out(&actives, LeftOut::Book, database, console);
    note_left_out(&actives, LeftOut::OtherEmbargo, database, console);
    console.faults.check_print(
        print_releases(console.rt.alloc(), &mut console.out, &actives),
        DONE,
    )
}

fn print_releases<O: Write>(
    alloc: Global,
    out: &mut O,
    actives: &[ActiveRelease<'_>],
) -> io::Result<()> {
    write_start(alloc, out)?;
    for active in actives {
        write_items(alloc, out, active.holdings().rows())?;
    }
    write_end(alloc, out)?;
    out.flush()
}

// A number of rows that are left out, and why.
#[derive(Drop)]
struct LeftOutRows {
    count: usize,
    why: LeftOut,
}

impl fmt::Display for LeftOutRows {
    ghost use Rattle.std.specs.Prelude.{None};

    ghost output = { λ _. None };

    fn fmt<W: fmt::Write>(&self, f: &mut fmt::Formatter<W>) -> fmt::Result {
        match self.why {
            LeftOut::Book => write!(f, "books left out: {}", self.count),
            LeftOut::OtherEmbargo => {
                write!(f, "serials with another embargo left out: {}", self.count)
            }
        }
    }
}

// Notes how many rows are left out for a reason, if there are any.
fn note_left_out<O: Write, F: Write + Drop>(
    actives: &[ActiveRelease<'_>],
    why: LeftOut,
    database: &str,
    console: &mut Console<'_, O, F>,
) {
    let mut count = 0usize;
    for active in actives {
        count = count.saturating_add(count_left_out(active.holdings().rows(), why));
    }
    if count > 0 {
        console.faults.note(database, LeftOutRows { count, why });
    }
}

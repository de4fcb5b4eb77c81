//! The database of a node, and how its feed is opened and closed.
use feed_console::{Console, FAILED, REFUSED};
use feed_keep::Capacity;
use feed_model::KeepFault;
use feed_names::ReleaseName;
use feed_releases::{AnswerFault, Feed, Opening};
use std::io::Write;
use std::{fmt, io};

/// A place that has the records of a node from one run to the next.
pub trait Database {
    type Keeper: Capacity;

    /// Returns what a fault calls it.
    fn name(&self) -> &str;

    /// Returns whether something is there.
    fn is_there(&self) -> bool;

    /// Opens the keeper, and makes it if there is none.
    fn open(&self) -> Result<Self::Keeper, DatabaseFault>;

    /// Closes a keeper.
    fn close(&self, keeper: Self::Keeper) -> Result<(), DatabaseFault>;
}

/// Why a database does not open or close.
#[derive(Clone, Copy)]
pub enum DatabaseFault {
    /// Running out of memory.
    Memory,
    /// The device failed, or another process has it open.
    Device,
    /// The file is not the database of a node, or cannot be.
    NotOurs(Unusable),
}

/// Why a file is not the database of a node.
#[derive(Clone, Copy)]
pub enum Unusable {
    /// The file or its folder may not be opened or written, with the system's error.
    File(io::Error),
    /// The same of the log beside it.
    Log(io::Error),
    /// It or its log is not a plain file, or the log has another name.
    NotPlain,
    /// It has another name, a hard link.
    Linked,
    /// SQLite takes its name for no file.
    Name,
    /// It is not a SQLite database. Such a file is not opened.
    NotDatabase,
    /// SQLite left a rollback journal beside it.
    Journal,
    /// Its pages do not fit together.
    Damaged,
    /// SQLite does not read its tables, or a row breaks their rules.
    Unsound,
    /// It has tables of the names of a node's that are not a node's, or of a later layout.
    Tables,
}

// The advice for a file that does not open.
const WRITABLE: &str = "this user has to be able to write it and its folder";

// The cause of a file that is not used, with the path that the file has.
#[derive(Drop)]
struct Cause<'a> {
    path: &'a str,
    why: Unusable,
}

impl fmt::Display for Cause<'_> {
    ghost use Rattle.std.specs.Prelude.{None};

    ghost output = { λ _. None };

    fn fmt<W: fmt::Write>(&self, f: &mut fmt::Formatter<W>) -> fmt::Result {
        match self.why {
            Unusable::File(error) => write!(f, "{error}: {WRITABLE}"),
            Unusable::Log(error) => write!(f, "its log {}-wal: {error}: {WRITABLE}", self.path),
            Unusable::Journal => write!(
                f,
                "it has the rollback journal {}-journal: open it once with sqlite3",
                self.path
            ),
            why => f.write_str(words_of(why, self.path)),
        }
    }
}

// Returns the words for a cause without the system's error. A list is known by the ending of its name.
fn words_of(why: Unusable, path: &str) -> &'static str {
    match why {
        Unusable::NotPlain => "it or its log is not a plain file with one name: use another path",
        Unusable::Linked => "the file has another name, a hard link: remove that",
        Unusable::Name => "SQLite takes this name for no file: put ./ before it",
        Unusable::NotDatabase if path.ends_with(".txt") => {
            "it is a list and not a database: give the path of a database, which is made if it is not there"
        }
        Unusable::Damaged => "its pages are damaged: restore a copy, or begin anew",
        Unusable::Unsound =>
            "a row breaks the rules of its table, or they are not kbfeed's: restore a copy, or begin anew",
        Unusable::Tables =>
            "its tables are not a node's, or of a later version: use another path, or that version",
        _ => "it is not a SQLite database: use another path",
    }
}

/// Opens the feed on what a database holds, with the room that its keeper has. A fault is reported: `NotOurs` and
/// `Damaged` give status 1, `Memory` and `Device` 3.
pub fn open_feed<D: Database, O: Write, F: Write + Drop>(
    database: &D,
    console: &mut Console<'_, O, F>,
) -> Result<Feed<D::Keeper>, u8> {
    let keeper = open_keeper(database, console)?;
    match Feed::open_to_capacity(console.rt.alloc(), keeper) {
        Ok(feed) => Ok(feed),
        Err(fault) => Err(report_keeper(fault.cause, database.name(), console)),
    }
}

/// Begins to open the feed on what a database holds, as `open_feed` does: opens the database and loads its records.
/// The faults are reported in the same way.
pub fn begin_feed<D: Database, O: Write, F: Write + Drop>(
    database: &D,
    console: &mut Console<'_, O, F>,
) -> Result<Opening<D::Keeper>, u8> {
    let keeper = open_keeper(database, console)?;
    match Opening::begin_to_capacity(console.rt.alloc(), keeper) {
        Ok(opening) => Ok(opening),
        Err(fault) => Err(report_keeper(fault.cause, database.name(), console)),
    }
}

// Opens the keeper of a database, or reports the fault and returns the status.
fn open_keeper<D: Database, O: Write, F: Write + Drop>(
    database: &D,
    console: &mut Console<'_, O, F>,
) -> Result<D::Keeper, u8> {
    match database.open() {
        Ok(keeper) => Ok(keeper),
        Err(fault) => Err(report_database(fault, database.name(), console)),
    }
}

/// Opens the feed on a database that exists, as `open_feed` does. One that is not there has no release: it is not
/// created, `NoRelease` is reported, and the status is 1.
pub fn open_existing_feed<D: Database, O: Write, F: Write + Drop>(
    database: &D,
    console: &mut Console<'_, O, F>,
) -> Result<Feed<D::Keeper>, u8> {
    if database.is_there() {
        open_feed(database, console)
    } else {
        Err(
            console.faults.report_with(
                AnswerFault::NoRelease,
                database.name(),
                "it is not there: kbfeed fetch or kbfeed node makes it",
                REFUSED,
            ),
        )
    }
}

/// Reports that a package has no active release, and returns the status.
pub fn report_no_release<O: Write, F: Write + Drop>(
    package: &str,
    console: &mut Console<'_, O, F>,
) -> u8 {
    let status = console.faults.report_with(
        AnswerFault::NoRelease,
        package,
        "no release of it is whole and good",
        REFUSED,
    );
    if let Ok(name) = ReleaseName::parse(console.rt.alloc(), package.as_bytes()) {
        let hint = format_args!(
            "it is a release: give its package, {}",
            str::from_utf8(name.package()).unwrap_or("")
        );
        console.faults.note(package, hint);
    }
    status
}

/// Closes a database. A failure is only noted: the database still has everything that was committed.
pub fn close_keeper<D: Database, O: Write, F: Write + Drop>(
    database: &D,
    keeper: D::Keeper,
    console: &mut Console<'_, O, F>,
) {
    if database.close(keeper).is_err() {
        console.faults.note(
            database.name(),
            "the log is not copied into the file, and stays beside it",
        );
    }
}

fn report_database<O: Write, F: Write + Drop>(
    fault: DatabaseFault,
    path: &str,
    console: &mut Console<'_, O, F>,
) -> u8 {
    match fault {
        DatabaseFault::Memory => console.faults.report("Memory", FAILED),
        DatabaseFault::Device => console.faults.report_with(
            "Device",
            path,
            "it does not read or write, or another process has it open: stop that, or use another path",
            FAILED,
        ),
        DatabaseFault::NotOurs(why) => {
            console
                .faults
                .report_with("NotOurs", path, Cause { path, why }, REFUSED)
        }
    }
}

/// Reports why a keeper does not return its records, or why no feed keeps such records, and returns the status.
pub fn report_keeper<O: Write, F: Write + Drop>(
    fault: KeepFault,
    path: &str,
    console: &mut Console<'_, O, F>,
) -> u8 {
    match fault {
        KeepFault::Memory => console.faults.report(fault, FAILED),
        KeepFault::Device => console
            .faults
            .report_with(fault, path, "it does not read", FAILED),
        KeepFault::Damaged => console.faults.report_with(
            fault,
            path,
            "it holds what no feed keeps: restore a copy, or begin anew",
            REFUSED,
        ),
    }
}

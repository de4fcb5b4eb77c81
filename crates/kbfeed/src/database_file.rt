//! The database of a node in a SQLite file.
ghost use Rattle.std.specs.Prelude.{◌<◌};

use cmd_database::{Database, DatabaseFault, Unusable};
use cmd_node::run_command;
use feed_console::Console;
use feed_options::NodeCommand;
use feed_store::{CACHE_PAGES, LargeSqlKeep, SqlKeep, StoreFileFault};
use sqlite_std_file::File;
use sqlite_store::FileStore;
use std::fs::OpenOptions;
use std::io::{ErrorKind, Read, Write};
use std::os::unix::fs::MetadataExt;
use std::{fs, io};

// The first bytes of a SQLite file (its file format, section 1.3).
const MAGIC: [u8; 16] = *b"SQLite format 3\0";

// The least size of a page, in bytes (its file format, section 1.3.2).
const MIN_PAGE: u64 = 512;

/// The database in a file, with its log beside it.
#[derive(Drop)]
pub struct DatabaseFile<'a> {
    pub rt: &'a HostRuntime,
    pub path: &'a str,
    /// The bytes up to which all pages of the file and its log are kept in memory.
    pub cache_limit: u64,
}

impl Database for DatabaseFile<'_> {
    type Keeper = LargeSqlKeep<FileStore<File>>;

    fn name(&self) -> &str {
        self.path
    }

    fn is_there(&self) -> bool {
        match fs::metadata(self.rt, self.path) {
            Ok(_) => true,
            Err(error) => error.kind() != ErrorKind::NotFound,
        }
    }

    fn open(&self) -> Result<LargeSqlKeep<FileStore<File>>, DatabaseFault> {
        match self.is_other_file() {
            Ok(false) => {}
            Ok(true) => return Err(DatabaseFault::NotOurs(Unusable::NotDatabase)),
            Err(error) if error.kind() == ErrorKind::OutOfMemory => {
                return Err(DatabaseFault::Memory);
            }
            Err(_) => {}
        }
        match SqlKeep::open_file_with_cache(self.rt, self.path, self.cache_pages()) {
            Ok(store) => Ok(LargeSqlKeep::of(store)),
            Err(fault) => Err(self.fault_of(fault)),
        }
    }

    fn close(&self, keeper: LargeSqlKeep<FileStore<File>>) -> Result<(), DatabaseFault> {
        match keeper.into_store().close() {
            Ok(()) => Ok(()),
            Err(fault) => Err(self.fault_of(StoreFileFault::from(fault))),
        }
    }
}

impl DatabaseFile<'_> {
    // Returns whether the file is there and is not a SQLite database. SQLite would leave an empty log beside such a
    // file. If the log has bytes, SQLite decides: after a loss of power the first page may be in the log alone.
    fn is_other_file(&self) -> io::Result<bool> {
        let found = fs::metadata(self.rt, self.path)?;
        if !found.is_file() || found.len() == 0 {
            return Ok(false);
        }
        let mut front = [0u8; 16];
        let mut file = fs::File::open(self.rt, self.path)?;
        match file.read_exact(&mut front) {
            Ok(()) if front == MAGIC => Ok(false),
            Ok(()) => Ok(!self.has_log()?),
            Err(error) if error.kind() == ErrorKind::UnexpectedEof => Ok(!self.has_log()?),
            Err(error) => Err(error),
        }
    }

    // Returns whether a log with bytes is beside the file.
    fn has_log(&self) -> io::Result<bool> {
        Ok(self.log_size()? > 0)
    }

    // Returns the bytes of the log beside the file, or 0 if there is none.
    fn log_size(&self) -> io::Result<u64> {
        let log = format!(in self.rt.alloc(); "{}-wal", self.path)?;
        match fs::metadata(self.rt, log.as_str()) {
            Ok(found) => Ok(found.len()),
            Err(error) if error.kind() == ErrorKind::NotFound => Ok(0),
            Err(error) => Err(error),
        }
    }

    // Returns how many pages are kept in memory: all, if the file and its log are small enough.
    fn cache_pages(&self) -> usize {
        match self.pages() {
            Ok(Some(pages)) => CACHE_PAGES.max(pages as usize),
            Ok(None) | Err(_) => CACHE_PAGES,
        }
    }

    // Returns the number of pages of the file and its log, if they are small enough to be kept in memory.
    fn pages(&self) -> io::Result<Option<u64>> {
        let found = fs::metadata(self.rt, self.path)?;
        let size = found.len().saturating_add(self.log_size()?);
        if !found.is_file() || size > self.cache_limit {
            return Ok(None);
        }
        let mut front = [0u8; 18];
        let mut file = fs::File::open(self.rt, self.path)?;
        file.read_exact(&mut front)?;
        Ok(Some(size / page_size(front)))
    }

    // Returns the fault of a database that a fault of its keeper is.
    fn fault_of(&self, fault: StoreFileFault) -> DatabaseFault {
        DatabaseFault::NotOurs(match fault {
            StoreFileFault::Memory => return DatabaseFault::Memory,
            StoreFileFault::Device => return DatabaseFault::Device,
            StoreFileFault::System(error) => self.unopened(error),
            StoreFileFault::Name => Unusable::Name,
            StoreFileFault::Journal => Unusable::Journal,
            StoreFileFault::Damaged => Unusable::Damaged,
            StoreFileFault::Unsound => Unusable::Unsound,
            StoreFileFault::Tables => Unusable::Tables,
        })
    }

    // Returns what the system does not open. It is the log if the file itself opens.
    fn unopened(&self, error: io::Error) -> Unusable {
        if self.has_other_name() {
            Unusable::Linked
        } else if error.kind() == ErrorKind::Unsupported {
            Unusable::NotPlain
        } else if self.opens() {
            Unusable::Log(error)
        } else {
            Unusable::File(error)
        }
    }

    fn opens(&self) -> bool {
        OpenOptions::new()
            .read(true)
            .write(true)
            .open(self.rt, self.path)
            .is_ok()
    }

    // Returns whether the file has more names than one. Its log is found by its name, so a process that opens it by
    // another name would not see the commits in the log.
    fn has_other_name(&self) -> bool {
        match fs::metadata(self.rt, self.path) {
            Ok(found) => found.is_file() && found.nlink() > 1,
            Err(_) => false,
        }
    }
}

// Returns the size of a page that the first bytes of a file state (its file format, section 1.3.2). There 1 stands for
// 65,536.
fn page_size(front: [u8; 18]) -> u64
    ensures { 0 < result }
{
    match u16::from_be_bytes([front[16], front[17]]) {
        1 => 65_536,
        size => (size as u64).max(MIN_PAGE),
    }
}

// A command that ends soon keeps a file of up to 128 MiB in memory while it runs, so that SQLite reads each page twice
// and not six times. A node runs on, and leaves the memory to its lists.
const CACHE_LIMIT: u64 = 134_217_728;

/// Runs a command on the database file at a path, prints its output to the console, and returns the exit status.
pub fn run_at<O: Write, F: Write + Drop>(
    path: &str,
    command: NodeCommand<'_>,
    console: &mut Console<'_, O, F>,
) -> u8 {
    let cache_limit = match command {
        NodeCommand::Run(_) => 0,
        NodeCommand::Database(_) => CACHE_LIMIT,
    };
    let database = DatabaseFile {
        rt: console.rt,
        path,
        cache_limit,
    };
    run_command(&database, command, console)
}

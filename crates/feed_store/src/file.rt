//! Opens and closes the store over a file.
ghost use Rattle.std.specs.Prelude.{◌≡◌, ◌≢◌, true, false, IfErr, IfOk, IsTrue};
ghost use Rattle.sqlite_std_file.specs.File.{file_is_usable, IsFresh};
ghost use Rattle.sqlite_wal.specs.Files.{image_at};
ghost use Rattle.sqlite.specs.Files.{image_of};
ghost use Rattle.feed_store.specs.Adopted.{IsOpenedAs};

use crate::fault::{StoreFault, StoreFileFault, open_fault_of};
use crate::sql_keep::SqlKeep;
use sqlite::{Connection, Options};
use sqlite_disk::{Disk, Files, Start, Unknown};
use sqlite_std_file::{File, FileFrom, OpenError, open};
use sqlite_store::FileStore;
use std::alloc::Global;
use std::hash::{BuildHasher, RandomState};
use std::io;
use std::io::ErrorKind;

/// The pages of a database file that are kept in memory, unless a caller asks for another number.
pub const CACHE_PAGES: usize = 2_000;

impl SqlKeep<FileStore<File>> {
    /// Opens the keeper of a database file, or creates the file if it does not exist. The log is beside it, at the same
    /// path with `-wal`. The file is locked until the keeper is closed or dropped. `CACHE_PAGES` of its pages are kept
    /// in memory.
    ///
    /// # Errors
    ///
    /// Returns `NotOurs` if SQLite rejects the file or its tables are not those of a keeper, and `Device` if another
    /// process has it open.
    pub fn open_file(rt: &HostRuntime, path: &str) -> Result<SqlKeep<FileStore<File>>, StoreFault>
        ensures opened { IfOk result (λ keep.
            IsOpenedAs (image_at ⟦<Unknown as Start>⟧) keep.0 keep.1.1) }
        ensures fresh { IfOk result (λ keep. (keep.1.0 ≡ 0) × (keep.1.2 ≡ 0)) }
    {
        Ok(SqlKeep::open_file_with_cache(rt, path, CACHE_PAGES)?)
    }

    /// Opens the keeper of a database file, as `open_file` does, and keeps this many of its pages in memory. An open
    /// reads each page that is kept twice, and any other one up to six times. The fault has the cause of each
    /// `NotOurs`.
    pub fn open_file_with_cache(
        rt: &HostRuntime,
        path: &str,
        cache_pages: usize,
    ) -> Result<SqlKeep<FileStore<File>>, StoreFileFault>
        ensures opened { IfOk result (λ keep.
            IsOpenedAs (image_at ⟦<Unknown as Start>⟧) keep.0 keep.1.1) }
        ensures fresh { IfOk result (λ keep. (keep.1.0 ≡ 0) × (keep.1.2 ≡ 0)) }
    {
        SqlKeep::open_from(rt, path, Unknown, cache_pages)
    }
}

impl<S: Start> SqlKeep<FileStore<FileFrom<S>>> {
    /// Opens the keeper of a database file, as `open_file_with_cache` does. Contracts see the old bytes of the files as
    /// `start`.
    pub fn open_from(
        rt: &HostRuntime,
        path: &str,
        start: S,
        cache_pages: usize,
    ) -> Result<SqlKeep<FileStore<FileFrom<S>>>, StoreFileFault>
        ensures opened { IfOk result (λ keep.
            IsOpenedAs (image_at S.Start) keep.0 keep.1.1) }
        ensures fresh { IfOk result (λ keep. (keep.1.0 ≡ 0) × (keep.1.2 ≡ 0)) }
    {
        let files = open_pair(rt, path, start)?;
        let options = options_of(rt, cache_pages)?;
        SqlKeep::open_files(rt.alloc(), files, options)
    }
}

// Opens a database file and its log, or creates them. SQLite takes the two names that are refused for no files.
fn open_pair<S: Start>(
    rt: &HostRuntime,
    path: &str,
    start: S,
) -> Result<Files<FileFrom<S>>, StoreFileFault>
    ensures usable { IfOk result (λ files. IsTrue (file_is_usable S.Start files.log)
        × IsTrue (file_is_usable S.Start files.db)) }
    ensures fresh { IfOk result (λ files. IsFresh true files.log × IsFresh false files.db) }
{
    if path == ":memory:" || path.starts_with("file:") {
        return Err(StoreFileFault::Name);
    }
    match open(rt, path, start) {
        Ok(files) => Ok(files),
        Err(OpenError::OutOfMemory) => Err(StoreFileFault::Memory),
        Err(OpenError::Busy) => Err(StoreFileFault::Device),
        Err(OpenError::HotJournal) => Err(StoreFileFault::Journal),
        Err(OpenError::Io(error)) => Err(system_fault(error)),
    }
}

fn system_fault(error: io::Error) -> StoreFileFault {
    match error.kind() {
        ErrorKind::OutOfMemory => StoreFileFault::Memory,
        _ => StoreFileFault::System(error),
    }
}

// Returns the options of a database that keeps so many pages in memory.
fn options_of(rt: &HostRuntime, cache_pages: usize) -> Result<Options, StoreFileFault> {
    match RandomState::new(rt) {
        Ok(state) => Ok(Options {
            cache_pages,
            ..Options::new(state.hash_one(&0u8))
        }),
        Err(error) => Err(system_fault(error)),
    }
}

impl<D: Disk + Drop> SqlKeep<FileStore<D>> {
    // Opens the keeper of files on any disk. It makes `open_from` cheap to prove: a keeper is adopted, and what is left
    // of the files dropped, at an abstract disk here, and not at the files of a process.
    fn open_files(
        alloc: Global,
        files: Files<D>,
        options: Options,
    ) -> Result<SqlKeep<FileStore<D>>, StoreFileFault>
        requires log { IsTrue (D.Disk.is_usable files.log) }
        requires db { IsTrue (D.Disk.is_usable files.db) }
        ensures opened { IfOk result (λ keep. IsOpenedAs (image_of D.Disk files) keep.0 keep.1.1) }
        ensures fresh { IfOk result (λ keep. (keep.1.0 ≡ 0) × (keep.1.2 ≡ 0)) }
    {
        match Connection::open_files_with(alloc, files, options, false) {
            Ok(conn) => SqlKeep::adopt_or_drop(alloc, conn),
            Err((error, _)) => Err(open_fault_of(error)),
        }
    }

    /// Copies the log into the database file, and closes both. After an error they are closed too, and the next open
    /// finds every commit in the two files.
    pub fn close(self) -> Result<(), StoreFault>
        ensures cause { IfErr result (λ fault. fault ≢ StoreFault.NotOurs) }
    {
        let SqlKeep { conn, .. } = self;
        Ok(conn.close()?)
    }
}

//! The errors of opening a database, and the faults for the errors of SQLite.
ghost use Rattle.std.specs.Prelude.{◌≡◌, ◌≢◌};
ghost use Rattle.feed_store.specs.Faults.{keep_fault_for, open_fault_for};
ghost use Rattle.feed_keep.specs.Cause.{IsCounted};

use feed_model::KeepFault;
use sqlite::{Alter, Connection, Error, ErrorCode};
use std::io;
use thiserror::Error as Fault;

/// Why a database is not adopted as a keeper.
#[derive(Clone, Copy, Debug, PartialEq, Eq, Fault)]
pub enum StoreFault {
    /// An allocation failed.
    #[error("Memory")]
    Memory,
    /// The database could not be read or written.
    #[error("Device")]
    Device,
    /// The file is not a database, or its tables are not those of a keeper.
    #[error("NotOurs")]
    NotOurs,
}

/// Why a database file is not opened as a keeper. To callers of `open_file` all but the first two are `NotOurs`.
#[derive(Clone, Copy)]
pub enum StoreFileFault {
    /// An allocation failed.
    Memory,
    /// The database could not be read or written, or another process has it open.
    Device,
    /// The file or its log was not opened or created, with the system's error. It is `Unsupported` for one that is not
    /// a plain file, or has another name.
    System(io::Error),
    /// SQLite takes this name for no file: `:memory:`, or one that begins with `file:`.
    Name,
    /// A rollback journal is beside the file. Only SQLite itself plays it back.
    Journal,
    /// The pages of the file do not fit together.
    Damaged,
    /// SQLite does not read the tables, or a row breaks their rules.
    Unsound,
    /// The tables are not those of a keeper.
    Tables,
}

/// A connection that was not adopted as a keeper, and why.
#[derive(Drop)]
pub struct AdoptFault<S: Alter> {
    pub cause: StoreFault,
    pub connection: Connection<S>,
}

/// The fault for an error of an open database: `Memory` if SQLite ran out of memory, and otherwise `Device`.
impl From<Error> for StoreFault {
    ghost use Rattle.std.specs.Prelude.{◌≡◌, ◌≢◌};
    ghost use Rattle.feed_store.specs.Faults.{fault_for};
    ghost use Rattle.feed_store.specs.declared.fault.StoreFault.TheVariants.{NotOurs};

    ghost from_gives = { λ error fault. (fault ≡ fault_for error) × (fault ≢ NotOurs) };

    fn from(error: Error) -> StoreFault {
        match error {
            Error::SqliteFailure(ErrorCode::OutOfMemory) => StoreFault::Memory,
            _ => StoreFault::Device,
        }
    }
}

/// The fault of a file whose database is not adopted: its tables are not those of a keeper if it is `NotOurs`.
impl From<StoreFault> for StoreFileFault {
    ghost use Rattle.std.specs.Prelude.{◌≡◌};
    ghost use Rattle.feed_store.specs.Faults.{with_cause};

    ghost from_gives = { λ fault given. given ≡ with_cause fault };

    fn from(fault: StoreFault) -> StoreFileFault {
        match fault {
            StoreFault::Memory => StoreFileFault::Memory,
            StoreFault::Device => StoreFileFault::Device,
            StoreFault::NotOurs => StoreFileFault::Tables,
        }
    }
}

/// The fault without its cause.
impl From<StoreFileFault> for StoreFault {
    ghost use Rattle.std.specs.Prelude.{◌≡◌};
    ghost use Rattle.feed_store.specs.Faults.{without_cause};

    ghost from_gives = { λ fault given. given ≡ without_cause fault };

    fn from(fault: StoreFileFault) -> StoreFault {
        match fault {
            StoreFileFault::Memory => StoreFault::Memory,
            StoreFileFault::Device => StoreFault::Device,
            _ => StoreFault::NotOurs,
        }
    }
}

/// Returns the fault for an error of opening a database.
pub(crate) fn open_fault_of(error: Error) -> StoreFileFault
    ensures { result ≡ open_fault_for error }
{
    match error {
        Error::SqliteFailure(ErrorCode::DatabaseCorrupt) => StoreFileFault::Damaged,
        Error::SqliteFailure(ErrorCode::NotADatabase | ErrorCode::CannotOpen) =>
            StoreFileFault::Unsound,
        _ => StoreFileFault::from(StoreFault::from(error)),
    }
}

/// Returns the fault of a keeper for an error of its database, and counts the error unless memory ran out.
pub(crate) fn keep_fault_of(failures: &mut u64, error: Error) -> KeepFault
    ensures value { result ≡ keep_fault_for error }
    ensures undamaged { result ≢ KeepFault.Damaged }
    ensures device { IsCounted (result ≡ KeepFault.Device) failures.old failures.new }
{
    match error {
        Error::SqliteFailure(ErrorCode::OutOfMemory) => KeepFault::Memory,
        _ => {
            *failures = failures.saturating_add(1);
            KeepFault::Device
        }
    }
}

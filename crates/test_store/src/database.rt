//! Databases that are opened as keepers: in files, and in memory.
use feed_keep::Keep;
use feed_store::SqlKeep;
use sqlite::{Alter, MemStore};
use sqlite_std_file::File;
use sqlite_store::FileStore;
use std::alloc::Global;
use std::marker::PhantomData;
use std::test::Fail;

/// A database that can be opened as a keeper.
pub trait DriverDatabase {
    type Keeper: Keep;

    fn open(&self) -> Result<Self::Keeper, Fail>;

    fn close(keeper: Self::Keeper) -> Result<(), Fail>;
}

/// The database in a file.
#[derive(Drop)]
pub struct DriverDatabaseFile<'a> {
    pub rt: &'a HostRuntime,
    pub path: &'a str,
}

impl DriverDatabase for DriverDatabaseFile<'_> {
    type Keeper = SqlKeep<FileStore<File>>;

    fn open(&self) -> Result<SqlKeep<FileStore<File>>, Fail> {
        match SqlKeep::open_file(self.rt, self.path) {
            Ok(keeper) => Ok(keeper),
            Err(fault) => Err(Fail::new(fault)),
        }
    }

    fn close(keeper: SqlKeep<FileStore<File>>) -> Result<(), Fail> {
        Ok(keeper.close()?)
    }
}

/// A store that begins empty.
pub trait EmptyStore: Alter + Drop {
    fn keeper(alloc: Global) -> Result<SqlKeep<Self>, Fail>;
}

impl EmptyStore for MemStore {
    fn keeper(alloc: Global) -> Result<SqlKeep<MemStore>, Fail> {
        match SqlKeep::open_memory(alloc) {
            Ok(keeper) => Ok(keeper),
            Err(fault) => Err(Fail::new(fault)),
        }
    }
}

/// A new database in an empty store. The store is a parameter, since the toolchain has no statement of an impl whose
/// keeper has none.
#[derive(Drop)]
pub struct NewDatabase<S> {
    pub alloc: Global,
    pub of: PhantomData<S>,
}

impl<S: EmptyStore> DriverDatabase for NewDatabase<S> {
    type Keeper = SqlKeep<S>;

    fn open(&self) -> Result<SqlKeep<S>, Fail> {
        S::keeper(self.alloc)
    }

    fn close(_keeper: SqlKeep<S>) -> Result<(), Fail> {
        Ok(())
    }
}

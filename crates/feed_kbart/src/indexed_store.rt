//! The rows of a file while it is read, with their index.
ghost use Rattle.std.specs.Prelude.{◌≡◌, true, MatchResult};
ghost use Rattle.feed_kbart.specs.Faults.{IsFullOf};
ghost use Rattle.feed_kbart.specs.Index.{IsIndexOf};
ghost use Rattle.feed_kbart.specs.Store.{HaveRows, stored_rows};

use crate::fault::KbartFault;
use crate::header::Columns;
use crate::holdings::KeepRows;
use crate::identifiers::Identifiers;
use crate::index::Index;
use crate::index_builder::IndexBuilder;
use crate::row::Row;
use crate::row_store::RowStore;
use csv::ByteRecord;
use std::alloc::{AllocError, Global};
use std::mem::replace;

/// The rows so far, and their index. They are whole unless adding a row has failed.
#[derive(Drop)]
pub(crate) struct IndexedStore {
    store: RowStore,
    index: IndexBuilder,
    whole: bool,
    ghost held: { whole ≡ true → ∥ HaveRows store index ∥₁ },
}

impl IndexedStore {
    /// Returns the rows and their index.
    ///
    /// # Errors
    ///
    /// `Memory`, also if adding a row has failed, and `TooLong` if there are more rows than a file can have.
    pub(crate) fn finish(self, alloc: Global) -> Result<(Vec<Row>, Index), KbartFault>
        ensures { MatchResult result
            (λ both. (both.0.items ≡ stored_rows self.store) × IsIndexOf both.0.items both.1)
            (IsFullOf (stored_rows self.store)) }
    {
        let IndexedStore {
            store,
            index,
            whole,
            ..
        } = self;
        if !whole {
            return Err(KbartFault::Memory);
        }
        if !store.has_few_rows() {
            return Err(KbartFault::TooLong);
        }
        let rows = store.finish(alloc)?;
        let index = index.finish(alloc)?;
        Ok((rows, index))
    }
}

impl KeepRows for IndexedStore {
    ghost use Rattle.feed_kbart.specs.IndexedStores.{AreStoredAndIndexed};

    ghost keeps = { AreStoredAndIndexed };

    fn new(alloc: Global) -> IndexedStore {
        IndexedStore {
            store: RowStore::new(alloc),
            index: IndexBuilder::new(alloc),
            whole: true,
        }
    }

    fn add(
        &mut self,
        alloc: Global,
        number: u32,
        columns: &Columns,
        fields: &ByteRecord,
        identifiers: &Identifiers,
    ) -> Result<(), AllocError> {
        let whole = replace(&mut self.whole, false);
        self.store.add(alloc, number, columns, fields, identifiers)?;
        self.index.add(alloc, identifiers)?;
        self.whole = whole;
        Ok(())
    }
}

//! The rows of a file without an index.
ghost use Rattle.std.specs.Prelude.{◌≡◌, IfOk};

use crate::holdings::{Aside, HoldingsBuilder};
use crate::row::Row;
use crate::row_store::RowStore;
use std::alloc::{AllocError, Global};
use std::marker::Model;

/// The rows of a good file and its skipped records, without an index by identifier.
#[derive(Debug, Drop)]
pub struct FileRows {
    pub(crate) rows: Vec<Row>,
    pub(crate) aside: Vec<Aside>,
}

impl Model for FileRows {
    ghost use Rattle.feed_kbart.specs.HoldingsValue.{HoldingsValue};

    ghost Value = { HoldingsValue };

    ghost view = { λ r. record { rows = r.rows.items; aside = r.aside.items } };
}

impl FileRows {
    ghost use Rattle.feed_kbart.specs.HoldingsValue.{HoldingsValue};
    ghost use Rattle.feed_kbart.specs.Kept.{IsKept};
    ghost use Rattle.feed_kbart.specs.Store.{AreStored};

    pub(crate) fn of(alloc: Global, kept: HoldingsBuilder<RowStore>) -> Result<FileRows, AllocError>
        ensures { IfOk result (λ list. (held : HoldingsValue) → IsKept AreStored held kept → list ≡ held) }
    {
        let HoldingsBuilder { rows, aside } = kept;
        let rows = rows.finish(alloc)?;
        Ok(FileRows { rows, aside })
    }

    /// Returns the rows, in file order.
    pub fn rows(&self) -> &[Row]
        ensures { result.now ≡ self.now.rows }
    {
        &self.rows
    }

    /// Returns the skipped records, in file order.
    pub fn aside(&self) -> &[Aside]
        ensures { result.now ≡ self.now.aside }
    {
        &self.aside
    }
}

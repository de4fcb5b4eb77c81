//! Counting the rows of a file without keeping them.
ghost use Rattle.std.specs.Prelude.{◌≡◌, ◌≤◌, ◌<◌, ◌+◌, ◌^◌, length};

use crate::header::Columns;
use crate::holdings::{Aside, HoldingsBuilder, KeepRows};
use crate::identifiers::Identifiers;
use csv::ByteRecord;
use std::alloc::{AllocError, Global};
use std::marker::Model;

/// The number of rows of a good file, and its skipped records.
#[derive(Debug, Drop)]
pub struct FileCount {
    rows: u32,
    aside: Vec<Aside>,
}

impl Model for FileCount {
    ghost use Rattle.feed_kbart.specs.CountValue.{CountValue};

    ghost Value = { CountValue };

    ghost view = { λ c. record { rows = c.rows; aside = c.aside.items } };
}

/// A row counter, which keeps nothing else of the rows.
#[derive(Drop)]
pub(crate) struct RowCount {
    pub(crate) rows: u32,
}

impl KeepRows for RowCount {
    ghost keeps = { λ rows c. (c.rows ≤ length rows) × (c.rows + 1 < 2 ^ 32 → c.rows ≡ length rows) };

    fn new(_alloc: Global) -> RowCount {
        RowCount { rows: 0 }
    }

    fn add(
        &mut self,
        _alloc: Global,
        _number: u32,
        _columns: &Columns,
        _fields: &ByteRecord,
        _identifiers: &Identifiers,
    ) -> Result<(), AllocError> {
        self.rows = self.rows.saturating_add(1);
        Ok(())
    }
}

impl FileCount {
    pub(crate) fn of(kept: HoldingsBuilder<RowCount>) -> FileCount
        ensures { result ≡ record { rows = kept.rows.rows; aside = kept.aside.items } }
    {
        FileCount {
            rows: kept.rows.rows,
            aside: kept.aside,
        }
    }

    /// Returns the number of rows.
    pub fn rows(&self) -> u32
        ensures { result ≡ self.now.rows }
    {
        self.rows
    }

    /// Returns the skipped records, in file order.
    pub fn aside(&self) -> &[Aside]
        ensures { result.now ≡ self.now.aside }
    {
        &self.aside
    }
}

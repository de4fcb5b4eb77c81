//! The holdings of a file: its rows with an index by identifier, and its skipped records.
ghost use Rattle.std.specs.Prelude.{◌≡◌, ◌≤◌, ◌<◌, ◌++◌, List, [], ◌∷◌, OnOk, length};
ghost use Rattle.csv.specs.Records.{fields_of};
ghost use Rattle.feed_kbart.specs.Kept.{IsKept};

use crate::coverage::check_record;
use crate::fault::{KbartFault, Reason};
use crate::header::Columns;
use crate::identifiers::Identifiers;
use crate::index::Index;
use crate::indexed_store::IndexedStore;
use crate::retired::RetiredHoldings;
use crate::row::Row;
use csv::ByteRecord;
use feed_identifiers::{Identifier, Isbn, Issn};
use std::alloc::{AllocError, Global};
use std::marker::Model;

/// A record that was skipped, and why.
#[derive(Clone, Copy, Debug, PartialEq, Eq)]
pub struct Aside {
    /// The number of the record in its file. The header has number 1, and empty lines have none.
    pub number: u32,
    pub reason: Reason,
}

/// The holdings of a good file: its rows, with an index by identifier, and its skipped records.
#[derive(Debug, Drop)]
pub struct Holdings {
    rows: Vec<Row>,
    aside: Vec<Aside>,
    index: Index,
}

impl Model for Holdings {
    ghost use Rattle.feed_kbart.specs.HoldingsValue.{HoldingsValue};
    ghost use Rattle.feed_kbart.specs.Index.{IsIndexOf};

    ghost Value = { HoldingsValue };

    ghost view = { λ h. record { rows = h.rows.items; aside = h.aside.items } };

    ghost invariant = { λ h. IsIndexOf h.rows.items h.index };
}

/// A collector of a file's rows, which are added in file order.
pub(crate) trait KeepRows: Drop {
    ghost use Rattle.feed_kbart.specs.Coverage.{coverage_of};
    ghost use Rattle.feed_kbart.specs.RowValue.{RowValue};
    ghost use Rattle.feed_kbart.specs.Rows.{row_of};

    /// These rows were added, and no others.
    ghost keeps: { List RowValue → Self → Type 0 };

    /// Returns no rows.
    fn new(alloc: Global) -> Self
        ensures { keeps [] result };

    fn add(
        &mut self,
        alloc: Global,
        number: u32,
        columns: &Columns,
        fields: &ByteRecord,
        identifiers: &Identifiers,
    ) -> Result<(), AllocError>
        requires { identifiers.now ≡ (coverage_of columns.now (fields_of fields.now)).identifiers }
        ensures { OnOk result ((rows : List RowValue) → keeps rows self.old
            → keeps (rows ++ row_of columns.now number (fields_of fields.now) ∷ []) self.new) };
}

/// The rows and the skipped records so far.
#[derive(Drop)]
pub(crate) struct HoldingsBuilder<K> {
    pub(crate) rows: K,
    pub(crate) aside: Vec<Aside>,
}

impl<K: KeepRows> HoldingsBuilder<K> {
    ghost use Rattle.feed_kbart.specs.Holdings.{holdings_from, join_holdings, no_holdings};
    ghost use Rattle.feed_kbart.specs.HoldingsValue.{HoldingsValue};

    pub(crate) fn new(alloc: Global) -> HoldingsBuilder<K>
        ensures { IsKept K.keeps no_holdings result }
    {
        HoldingsBuilder {
            rows: K::new(alloc),
            aside: Vec::new(alloc),
        }
    }

    /// Adds a record, as a row or as a skipped record.
    pub(crate) fn add(
        &mut self,
        alloc: Global,
        columns: &Columns,
        number: u32,
        fields: &ByteRecord,
    ) -> Result<(), AllocError>
        ensures { OnOk result ((held : HoldingsValue) → IsKept K.keeps held self.old → IsKept K.keeps
            (join_holdings held (holdings_from columns.now number (fields_of fields.now ∷ []))) self.new) }
    {
        match check_record(columns, fields) {
            Ok(identifiers) => self.rows.add(alloc, number, columns, fields, &identifiers)?,
            Err(reason) => self.aside.push(Aside { number, reason })?,
        }
        Ok(())
    }
}

impl Holdings {
    ghost use Rattle.feed_kbart.specs.HoldingsValue.{HoldingsValue};
    ghost use Rattle.feed_kbart.specs.IndexedStores.{AreStoredAndIndexed};
    ghost use Rattle.feed_kbart.specs.Kept.{AreHeld};
    ghost use Rattle.feed_kbart.specs.Places.{places_having, places_with, places_with_isbn};

    /// Returns the holdings with these rows and skipped records.
    ///
    /// # Errors
    ///
    /// `Memory`, and `TooLong` if there are more rows than a file can have.
    pub(crate) fn of(
        alloc: Global,
        kept: HoldingsBuilder<IndexedStore>,
    ) -> Result<Holdings, KbartFault>
        ensures { (held : HoldingsValue) → IsKept AreStoredAndIndexed held kept → AreHeld held result }
    {
        let HoldingsBuilder { rows, aside } = kept;
        let (rows, index) = rows.finish(alloc)?;
        Ok(Holdings { rows, aside, index })
    }

    /// Returns the rows, in file order.
    pub fn rows(&self) -> &[Row]
        ensures { result.now ≡ self.now.rows }
    {
        &self.rows
    }

    /// Returns the places in `rows` of the rows that have an identifier, in print or online. They ascend, each once.
    pub fn with_identifier(&self, identifier: &Identifier) -> &[u32]
        ensures { result.now ≡ places_having identifier.now self.now.rows }
    {
        self.index.places_beside(identifier.key())
    }

    /// Returns the places in `rows` of the rows that have an ISSN, in print or online. They ascend, each once.
    pub fn with_issn(&self, issn: &Issn) -> &[u32]
        ensures { result.now ≡ places_with issn.now self.now.rows }
    {
        self.with_identifier(&Identifier::Issn(*issn))
    }

    /// Returns the places in `rows` of the rows that have an ISBN, in print or online. They ascend, each once.
    pub fn with_isbn(&self, isbn: &Isbn) -> &[u32]
        ensures { result.now ≡ places_with_isbn isbn.now self.now.rows }
    {
        self.with_identifier(&Identifier::Isbn(*isbn))
    }

    /// Returns the skipped records, in file order.
    pub fn aside(&self) -> &[Aside]
        ensures { result.now ≡ self.now.aside }
    {
        &self.aside
    }

    /// Ends the use of the holdings, so that they can be freed in portions. All rows are left.
    pub fn retire(self) -> RetiredHoldings
        ensures { length self.rows ≤ result }
    {
        let Holdings { rows, index, .. } = self;
        RetiredHoldings::of(rows, index)
    }
}

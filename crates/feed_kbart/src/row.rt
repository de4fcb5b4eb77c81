//! A row of a file: the holdings of one title.
ghost use Rattle.std.specs.Prelude.{◌≡◌};
ghost use Rattle.std.specs.Bool.{OnTrue};

use crate::identifiers::Kind;
use crate::row_cells::RowCells;
use crate::stored_record::StoredRecord;
use feed_identifiers::{Isbn, Issn};
use std::marker::Model;
use std::mem::size_of;

/// A row of a file: the holdings of one serial or one book. Its texts are as in the file, untrimmed; the text of an
/// absent column is empty. The dates and volumes of a book are ignored, so they are absent.
///
/// A row shares its bytes with other rows of its file, and parses its identifiers, dates and volumes when they are
/// asked for. `cells` finds all cells by one pass over its bytes, and each other getter is by it.
#[derive(Debug, Drop)]
pub struct Row {
    record: StoredRecord,
}

// A list may have 30 million rows.
const _: () = prove!(size_of::<Row>() == 16);

impl Model for Row {
    ghost use Rattle.feed_kbart.specs.RecordBytes.{cells_in, number_of};
    ghost use Rattle.feed_kbart.specs.RowValue.{RowValue};
    ghost use Rattle.feed_kbart.specs.Stored.{row_with_cells};

    ghost Value = { RowValue };

    ghost view = { λ r. row_with_cells (number_of r.record) (cells_in r.record) };
}

impl Row {
    ghost use Rattle.feed_kbart.specs.RecordBytes.{cells_in, number_of};
    ghost use Rattle.feed_kbart.specs.Identifiers.{kind, online_isbn, online_issn, print_isbn, print_issn};
    ghost use Rattle.feed_kbart.specs.RowCells.{content_of};
    ghost use Rattle.feed_kbart.specs.RowValue.{content};
    ghost use Rattle.feed_kbart.specs.Stored.{row_with_cells};

    /// Returns the row of a record. The record must not be one that is skipped.
    pub(crate) fn of(stored: StoredRecord) -> Row
        ensures { result ≡ row_with_cells (number_of stored) (cells_in stored) }
    {
        Row { record: stored }
    }

    /// Returns the number of the record in its file. The header has number 1, and empty lines have none.
    pub fn number(&self) -> u32
        ensures { result ≡ self.now.number }
    {
        self.record.number()
    }

    /// Returns the cells. Does not allocate.
    #[inline(always)]
    pub fn cells(&self) -> RowCells<'_>
        ensures content { content_of result ≡ content self.now }
        ensures identifiers { (content_of result).identifiers ≡ self.now.identifiers }
        ensures first_day { (content_of result).first_day ≡ self.now.first_day }
        ensures last_day { (content_of result).last_day ≡ self.now.last_day }
        ensures first_volume { (content_of result).first_volume ≡ self.now.first_volume }
        ensures last_volume { (content_of result).last_volume ≡ self.now.last_volume }
        ensures title { result.publication_title.now ≡ self.now.title }
        ensures url { result.title_url.now ≡ self.now.url }
        ensures title_id { result.title_id.now ≡ self.now.title_id }
        ensures depth { result.coverage_depth.now ≡ self.now.depth }
        ensures embargo { result.embargo_info.now ≡ self.now.embargo }
        ensures access { result.access_type.now ≡ self.now.access }
    {
        self.record.cells()
    }

    /// Returns `publication_title`.
    pub fn title(&self) -> &[u8]
        ensures { result.now ≡ self.now.title }
    {
        self.cells().publication_title
    }

    /// Returns whether the row is a serial's or a book's.
    pub fn kind(&self) -> Kind
        ensures { result ≡ kind self.now.identifiers }
    {
        self.cells().kind()
    }

    /// Returns the ISSN of a serial's `print_identifier`, if it is valid.
    pub fn print(&self) -> Option<Issn>
        ensures { result ≡ print_issn self.now.identifiers }
    {
        self.cells().print()?.issn()
    }

    /// Returns the ISSN of a serial's `online_identifier`, if it is valid.
    pub fn online(&self) -> Option<Issn>
        ensures { result ≡ online_issn self.now.identifiers }
    {
        self.cells().online()?.issn()
    }

    /// Returns the ISBN of a book's `print_identifier`, if it is valid.
    pub fn print_isbn(&self) -> Option<Isbn>
        ensures { result ≡ print_isbn self.now.identifiers }
    {
        self.cells().print()?.isbn()
    }

    /// Returns the ISBN of a book's `online_identifier`, if it is valid.
    pub fn online_isbn(&self) -> Option<Isbn>
        ensures { result ≡ online_isbn self.now.identifiers }
    {
        self.cells().online()?.isbn()
    }

    /// Returns the first day of `date_first_issue_online`, counted from 1970-01-01, or `None` if coverage has no
    /// beginning.
    pub fn first_day(&self) -> Option<i32>
        ensures { result ≡ self.now.first_day }
    {
        self.cells().first_day()
    }

    /// Returns the last day of `date_last_issue_online`, counted from 1970-01-01, or `None` if coverage extends to the
    /// present (NISO RP-9-2014).
    pub fn last_day(&self) -> Option<i32>
        ensures { result ≡ self.now.last_day }
    {
        self.cells().last_day()
    }

    /// Returns the number of `num_first_vol_online`, at most 999,999,999.
    pub fn first_volume(&self) -> Option<u32>
        ensures { result ≡ self.now.first_volume }
    {
        self.cells().volumes().0
    }

    /// Returns the number of `num_last_vol_online`, at most 999,999,999.
    pub fn last_volume(&self) -> Option<u32>
        ensures { result ≡ self.now.last_volume }
    {
        self.cells().volumes().1
    }

    /// Returns `title_url`.
    pub fn url(&self) -> &[u8]
        ensures { result.now ≡ self.now.url }
    {
        self.cells().title_url
    }

    /// Returns `title_id`.
    pub fn title_id(&self) -> &[u8]
        ensures { result.now ≡ self.now.title_id }
    {
        self.cells().title_id
    }

    /// Returns `coverage_depth`.
    pub fn depth(&self) -> &[u8]
        ensures { result.now ≡ self.now.depth }
    {
        self.cells().coverage_depth
    }

    /// Returns `embargo_info`.
    pub fn embargo(&self) -> &[u8]
        ensures { result.now ≡ self.now.embargo }
    {
        self.cells().embargo_info
    }

    /// Returns `access_type`.
    pub fn access(&self) -> &[u8]
        ensures { result.now ≡ self.now.access }
    {
        self.cells().access_type
    }

    /// Returns whether both rows have the same bytes in each column by which a list is read, but for spaces at the ends
    /// of identifiers, dates and volumes. They are then equal but for their numbers. Rows with other bytes may be equal
    /// as well: `1995` and `1995-01-01` begin on the same day.
    pub fn has_same_cells(&self, other: &Row) -> bool
        ensures { OnTrue result (content self.now ≡ content other.now) }
    {
        self.record.has_same_cells(&other.record)
    }
}

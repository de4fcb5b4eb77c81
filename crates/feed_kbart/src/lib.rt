//! Holdings lists of serials and books: the tab-separated files of NISO RP-9-2014 (KBART).
//!
//! `read_file` returns the rows of a file and the records that it skipped, or the first reason why the file is bad.
//! `Holdings::with_issn` and `with_isbn` find the rows of an identifier by an index. Queries parse identifiers, dates
//! and volumes with the same functions. `count_of` counts the rows and the skipped records for a report.
#![tactic(auto)]

mod count;
mod counts;
mod coverage;
mod entry;
mod fault;
mod file;
mod file_rows;
mod header;
mod header_fields;
mod holdings;
mod identifiers;
mod index;
mod index_builder;
mod indexed_store;
mod label;
mod law;
mod list_check;
mod list_records;
mod list_text;
mod long_row;
mod merge;
mod retired;
mod row;
mod row_cells;
mod row_store;
mod run;
mod runs;
mod stored_record;
mod stored_text;
mod window;

pub use count::FileCount;
pub use counts::{Counts, count_of};
pub use coverage::read_volume;
pub use fault::{BadFile, KbartFault, Reason};
pub use feed_dates::DayRange;
pub use feed_identifiers::{Identifier, Isbn, Issn};
pub use feed_text::Utf8Check;
pub use file::{count_file, list_file, read_file, read_parts};
pub use file_rows::FileRows;
pub use holdings::{Aside, Holdings};
pub use identifiers::{Identifiers, Kind};
pub use label::{LABELS, Label, REQUIRED_COUNT};
pub use law::{
    cells_are_getters, empty_file_is_bad, identifiers_are_of_their_kind, records_are_of_both_parts,
};
pub use list_check::{ListCheck, read_windows};
pub use retired::RetiredHoldings;
pub use row::Row;
pub use row_cells::RowCells;

//! A record that is stored in a block of bytes, which it shares with other records, or by itself if it is short.
ghost use Rattle.std.specs.Prelude.{◌≡◌, ◌↔◌, ◌++◌, IfSome, IsTrue, OnOk, drop, map};
ghost use Rattle.std.specs.List.{All, flat_map};
ghost use Rattle.std.specs.Rc.{rc_slice_items};
ghost use Rattle.csv.specs.Records.{fields_of};
ghost use Rattle.feed_kbart.specs.Columns.{cell};
ghost use Rattle.feed_kbart.specs.Labels.{label_count};
ghost use Rattle.feed_kbart.specs.RecordBytes.{cells_in, number_of};
ghost use Rattle.feed_kbart.specs.RowCells.{in_order};
ghost use Rattle.feed_kbart.specs.Stored.{IsShort, cells_of, kept_cells, kept_text};
ghost use Rattle.feed_kbart.specs.Stored.{text_bytes, texts_in};

use crate::header::{Columns, cell_of};
use crate::label::{LABEL_COUNT, PARSED_COUNT};
use crate::row_cells::RowCells;
use crate::stored_text::{has_same_texts, put_text};
use csv::ByteRecord;
use feed_bytes::trim_spaces;
use std::alloc::AllocError;
use std::rc::RcSlice;

// The bytes of a short record. It has room for nothing but an ISSN, printed or online, with its hyphen or without.
const SHORT_SIZE: usize = 11;

/// The number of a record, and its cells in their places. Each kind takes 16 bytes.
#[derive(Debug, Drop)]
pub(crate) enum StoredRecord {
    // The record has all its cells here, so no block is kept for it.
    Short {
        bytes: [u8; SHORT_SIZE],
        number: u32,
    },
    // The record begins at a place in a block.
    Shared {
        start: u16,
        number: u32,
        block: RcSlice<u8>,
    },
}

impl StoredRecord {
    pub(crate) fn new(block: RcSlice<u8>, start: u16, number: u32) -> StoredRecord
        ensures number { number_of result ≡ number }
        ensures cells { cells_in result ≡ texts_in label_count (drop start (rc_slice_items block)) }
    {
        match short_record(rest_of(&block, start as usize)) {
            Some(bytes) => StoredRecord::Short { bytes, number },
            None => StoredRecord::Shared {
                start,
                number,
                block,
            },
        }
    }

    pub(crate) fn number(&self) -> u32
        ensures { result ≡ number_of self.now }
    {
        match self {
            StoredRecord::Short { number, .. } | StoredRecord::Shared { number, .. } => *number,
        }
    }

    // Returns the bytes at whose front the cells are. It is inlined, so that a getter passes no cells after its own.
    #[inline(always)]
    fn bytes(&self) -> &[u8]
        ensures { texts_in label_count result.now ≡ cells_in self.now }
    {
        match self {
            StoredRecord::Short { bytes, .. } => bytes,
            StoredRecord::Shared { start, block, .. } => rest_of(block, *start as usize),
        }
    }

    /// Returns the cells.
    #[inline(always)]
    pub(crate) fn cells(&self) -> RowCells<'_>
        ensures { in_order result ≡ cells_in self.now }
    {
        RowCells::of_texts(self.bytes())
    }

    /// Returns whether another record has the same cells.
    pub(crate) fn has_same_cells(&self, other: &StoredRecord) -> bool
        ensures { IsTrue result ↔ (cells_in self.now ≡ cells_in other.now) }
    {
        has_same_texts(self.bytes(), other.bytes(), LABEL_COUNT)
    }
}

// Returns the first bytes of a record if it has all its cells in them: those that follow are empty.
fn short_record(bytes: &[u8]) -> Option<[u8; SHORT_SIZE]>
    ensures { IfSome result (λ short. texts_in label_count short ≡ texts_in label_count bytes.now) }
{
    // A record has a byte for each cell. If one of the two after these is not 0, no comparison is needed.
    match bytes {
        [a, b, c, d, e, f, g, h, i, j, k, 0, 0, ..] => {
            let short = [*a, *b, *c, *d, *e, *f, *g, *h, *i, *j, *k];
            has_same_texts(&short, bytes, LABEL_COUNT).then_some(short)
        }
        _ => None,
    }
}

// Returns the bytes from a place on.
fn rest_of(block: &[u8], start: usize) -> &[u8]
    ensures { result.now ≡ drop start block.now }
{
    if start <= block.len() {
        &block[start..]
    } else {
        &[]
    }
}

// Returns a cell as it is kept: without the spaces at its ends if it is only parsed.
fn kept_text(is_parsed: bool, cell: &[u8]) -> &[u8]
    ensures { result.now ≡ kept_text is_parsed cell.now }
{
    if is_parsed { trim_spaces(cell) } else { cell }
}

// Appends the cells of a record in these columns, as they are kept.
fn put_cells_in(
    block: &mut Vec<u8>,
    columns: &[Option<usize>],
    fields: &ByteRecord,
    is_parsed: bool,
) -> Result<(), AllocError>
    ensures added { OnOk result (block.new.items ≡ block.old.items
        ++ flat_map text_bytes (map (λ column. kept_text is_parsed (cell column (fields_of fields.now))) columns.now)) }
    ensures short { OnOk result
        (All (λ column. IsShort (kept_text is_parsed (cell column (fields_of fields.now)))) columns.now) }
{
    for column in columns {
        put_text(block, kept_text(is_parsed, cell_of(fields, *column)))?;
    }
    Ok(())
}

/// Appends the cells of a record. Those that are only parsed lose the spaces at their ends, so that no query passes
/// over them.
pub(crate) fn put_cells(
    block: &mut Vec<u8>,
    columns: &Columns,
    fields: &ByteRecord,
) -> Result<(), AllocError>
    ensures added { OnOk result (block.new.items
        ≡ block.old.items ++ flat_map text_bytes (kept_cells (cells_of columns.now (fields_of fields.now)))) }
    ensures short { OnOk result (All IsShort (kept_cells (cells_of columns.now (fields_of fields.now)))) }
{
    let columns = columns.in_order();
    let (parsed, shown) = columns.split_at(PARSED_COUNT);
    put_cells_in(block, parsed, fields, true)?;
    put_cells_in(block, shown, fields, false)
}

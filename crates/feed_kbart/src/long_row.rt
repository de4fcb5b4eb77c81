//! A row whose fields are read in pieces.
ghost use Rattle.std.specs.Prelude.{◌≡◌, ◌<◌, ◌++◌, ℕ, List, [], ◌∷◌, Option, Vec, IfOk, OnOk};
ghost use Rattle.std.specs.Prelude.{length, map, slice_index_or};
ghost use Rattle.std.specs.declared.alloc.Global.{Global};
ghost use Rattle.csv.specs.Records.{fields_of};
ghost use Rattle.feed_kbart.specs.Columns.{cell};
ghost use Rattle.feed_kbart.specs.Joined.{from_place, joined};
ghost use Rattle.feed_kbart.specs.Labels.{label_count};
ghost use Rattle.feed_kbart.specs.LongRows.{IsLongRow};

use crate::header::cell_of;
use crate::label::LABEL_COUNT;
use csv::ByteRecord;
use std::alloc::{AllocError, Global};
use std::array::from_fn;

/// The cells of a row in these columns so far. Other fields are not kept.
#[derive(Drop)]
pub(crate) struct LongRow {
    columns: [Option<usize>; LABEL_COUNT],
    cells: [Vec<u8>; LABEL_COUNT],
    // The place of the last field so far, which may continue.
    place: usize,
}

// Returns a column counted from a place, if it is not before it.
fn from_place(column: Option<usize>, place: usize) -> Option<usize>
    ensures { result ≡ from_place place column }
{
    match column {
        Some(column) if column >= place => Some(column - place),
        _ => None,
    }
}

// Appends what a piece has in the columns to their cells. Its first field continues the one at a place.
fn grow_cells(
    cells: &mut [Vec<u8>; LABEL_COUNT],
    columns: &[Option<usize>; LABEL_COUNT],
    place: usize,
    piece: &ByteRecord,
) -> Result<(), AllocError>
    ensures { OnOk result ((slot : ℕ) (c : Option ℕ) (d : Vec ℕ Global) → slot < label_count
        → (slice_index_or cells.new slot d).items ≡ (slice_index_or cells.old slot d).items
        ++ cell (from_place place (slice_index_or columns.now slot c)) (fields_of piece.now)) }
{
    for slot in 0..LABEL_COUNT {
        let text = cell_of(piece, from_place(columns[slot], place));
        cells[slot].extend_from_slice(text)?;
    }
    Ok(())
}

impl LongRow {
    /// Returns a row with one field, which is empty.
    pub(crate) fn new(alloc: Global, columns: [Option<usize>; LABEL_COUNT]) -> LongRow
        ensures { IsLongRow columns ([] ∷ []) result }
    {
        LongRow {
            columns,
            cells: from_fn(
                |_slot: usize| -> Vec<u8>
                    ensures { result.items ≡ [] }
                { Vec::new(alloc) },
            ),
            place: 0,
        }
    }

    /// Returns the row with the fields of the next piece. The first continues the last one so far.
    pub(crate) fn with(mut self, piece: &ByteRecord) -> Result<LongRow, AllocError>
        ensures { IfOk result (λ row. (columns : List (Option ℕ)) (fields : List (List ℕ))
            → 0 < length (fields_of piece.now) → IsLongRow columns fields self
            → IsLongRow columns (joined fields (fields_of piece.now)) row) }
    {
        grow_cells(&mut self.cells, &self.columns, self.place, piece)?;
        // No file has so many fields that their number does not fit.
        let Some(place) = self.place.checked_add(piece.len().saturating_sub(1)) else {
            return Err(AllocError);
        };
        self.place = place;
        Ok(self)
    }

    /// Returns the record of the cells, in the order in which they are stored.
    pub(crate) fn into_record(self, alloc: Global) -> Result<ByteRecord, AllocError>
        ensures { IfOk result (λ made. (columns : List (Option ℕ)) (fields : List (List ℕ))
            → length columns ≡ label_count → IsLongRow columns fields self
            → fields_of made ≡ map (λ column. cell column fields) columns) }
    {
        let mut record = ByteRecord::new(alloc);
        for cell in &self.cells {
            record.push_field(cell)?;
        }
        Ok(record)
    }
}

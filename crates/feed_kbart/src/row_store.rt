//! The rows of a file while it is read. The records of many rows are collected in a block, which the rows then share.
ghost use Rattle.std.specs.Prelude.{◌≡◌, ◌≤◌, ◌<◌, ◌++◌, List, [], IfOk, OnOk, length, map};
ghost use Rattle.std.specs.Bool.{OnFalse, OnTrue};
ghost use Rattle.std.specs.Rc.{rc_slice_items};
ghost use Rattle.feed_limits.specs.Limits.{file_limit};
ghost use Rattle.feed_kbart.specs.RowValue.{RowValue};
ghost use Rattle.feed_kbart.specs.Store.{AreStored, row_in, stored_rows};

use crate::header::Columns;
use crate::holdings::KeepRows;
use crate::identifiers::Identifiers;
use crate::row::Row;
use crate::stored_record::{StoredRecord, put_cells};
use csv::ByteRecord;
use feed_limits::FILE_LIMIT;
use std::alloc::{AllocError, Global};
use std::mem::replace;
use std::rc::RcSlice;

// The number of bytes from which on a block is full. A place below it has 16 bits.
const BLOCK_SIZE: usize = 65_536;

// The memory of a block that is not the first: mostly enough for the record that fills it.
const BLOCK_ROOM: usize = BLOCK_SIZE + 4_096;

/// A row whose block is still being filled: the place of its record, and its number.
#[derive(Clone, Copy)]
pub(crate) struct Draft {
    start: u16,
    number: u32,
}

/// The rows so far. The last ones are drafts.
#[derive(Drop)]
pub(crate) struct RowStore {
    rows: Vec<Row>,
    block: Vec<u8>,
    drafts: Vec<Draft>,
}

// Appends the rows of drafts.
fn add_rows(rows: &mut Vec<Row>, drafts: &[Draft], block: &RcSlice<u8>) -> Result<(), AllocError>
    ensures { OnOk result (rows.new.items ≡ rows.old.items ++ map (row_in (rc_slice_items block.now)) drafts.now) }
{
    for draft in drafts {
        let record = StoredRecord::new(block.clone()?, draft.start, draft.number);
        rows.push(Row::of(record))?;
    }
    Ok(())
}

impl RowStore {
    // Makes rows of the drafts, and begins a new block.
    fn seal(&mut self, alloc: Global) -> Result<(), AllocError>
        ensures rows { OnOk result (self.new.rows.items ≡ stored_rows self.old) }
        ensures block { OnOk result (self.new.block.items ≡ []) }
        ensures drafts { OnOk result (self.new.drafts.items ≡ []) }
    {
        let mut full = replace(&mut self.block, Vec::new(alloc));
        full.shrink_to_fit();
        let block = RcSlice::from_vec(full)?;
        add_rows(&mut self.rows, &self.drafts, &block)?;
        self.drafts.clear();
        Ok(())
    }

    // Begins a new block if this one is full.
    fn make_room(&mut self, alloc: Global) -> Result<(), AllocError>
        ensures same { OnOk result ((rows : List RowValue) → AreStored rows self.old → AreStored rows self.new) }
        ensures room { OnOk result (length self.new.block.items < BLOCK_SIZE) }
    {
        if self.block.len() < BLOCK_SIZE {
            return Ok(());
        }
        self.seal(alloc)?;
        self.block.reserve_exact(BLOCK_ROOM)?;
        Ok(())
    }

    /// Returns whether there are no more rows than a file can have.
    pub(crate) fn has_few_rows(&self) -> bool
        ensures few { OnTrue result (length (stored_rows self.now) ≤ file_limit) }
        ensures many { OnFalse result (file_limit < length (stored_rows self.now)) }
    {
        self.rows.len().saturating_add(self.drafts.len()) <= FILE_LIMIT
    }

    /// Returns the rows.
    pub(crate) fn finish(mut self, alloc: Global) -> Result<Vec<Row>, AllocError>
        ensures { IfOk result (λ rows. rows.items ≡ stored_rows self) }
    {
        self.seal(alloc)?;
        let RowStore {
            rows,
            block: _,
            drafts: _,
        } = self;
        Ok(rows)
    }
}

impl KeepRows for RowStore {
    ghost keeps = { AreStored };

    fn new(alloc: Global) -> RowStore {
        RowStore {
            rows: Vec::new(alloc),
            block: Vec::new(alloc),
            drafts: Vec::new(alloc),
        }
    }

    fn add(
        &mut self,
        alloc: Global,
        number: u32,
        columns: &Columns,
        fields: &ByteRecord,
        _identifiers: &Identifiers,
    ) -> Result<(), AllocError> {
        self.make_room(alloc)?;
        let start = self.block.len() as u16;
        put_cells(&mut self.block, columns, fields)?;
        self.drafts.push(Draft { start, number })?;
        Ok(())
    }
}

//! The index of rows while they are read. The entries of the rows read last are collected, and sorted into a run when
//! they are many. The runs are merged meanwhile.
ghost use Rattle.std.specs.Prelude.{◌≡◌, ◌≤◌, ◌<◌, ◌+◌, ◌++◌, ℕ, List, [], ◌∷◌, IfOk, OnOk, length, sum_by};
ghost use Rattle.feed_kbart.specs.Identifiers.{AreIdentifiers};
ghost use Rattle.feed_kbart.specs.Index.{AreIndexed, IsIndexOf, entries_of};
ghost use Rattle.feed_kbart.specs.RowValue.{RowValue};
ghost use Rattle.feed_kbart.specs.Runs.{weight_of};
ghost use Rattle.feed_kbart.specs.declared.entry.Entry.{Entry};
ghost use Rattle.feed_limits.specs.Limits.{file_limit};

use crate::entry::Entry;
use crate::identifiers::Identifiers;
use crate::index::Index;
use crate::run::Run;
use crate::runs::Runs;
use feed_identifiers::one_identifier_for_key;
use std::alloc::{AllocError, Global};
use std::mem::replace;

// The most entries of a run. They take 512 KiB, and are sorted in 2 ms.
const RUN_SIZE: usize = 65_536;

// After so many rows some entries of the runs are merged.
const ROW_COUNT: u32 = 64;

// The most entries that are merged then: 16 for each row since, which takes some microseconds. So the runs are merged
// as fast as rows are read, and no row waits for long.
const MERGE_COUNT: usize = 1_024;

/// The entries of the rows so far. Those of the rows read last are in no run yet.
#[derive(Drop)]
pub(crate) struct IndexBuilder {
    runs: Runs,
    recent: Vec<Entry>,
    // The place of the next row.
    next: u32,
}

// Appends the entries of the row at a place: one for each of its identifiers.
fn add_entries(
    entries: &mut Vec<Entry>,
    place: u32,
    identifiers: &Identifiers,
) -> Result<(), AllocError>
    ensures added { OnOk result (entries.new.items ≡ entries.old.items ++ entries_of place identifiers.now) }
    ensures printed { AreIdentifiers identifiers.now }
{
    match identifiers.numbers() {
        (Some(first), Some(second)) if first != second => {
            entries.push(Entry {
                number: first,
                place,
            })?;
            entries.push(Entry {
                number: second,
                place,
            })?;
        }
        (Some(number), _) | (None, Some(number)) => entries.push(Entry { number, place })?,
        (None, None) => {}
    }
    Ok(())
}

impl IndexBuilder {
    pub(crate) fn new(alloc: Global) -> IndexBuilder
        ensures { AreIndexed [] result }
    {
        IndexBuilder {
            runs: Runs::new(alloc),
            recent: Vec::new(alloc),
            next: 0,
        }
    }

    // Makes a run of the entries that are in none.
    fn seal(&mut self, alloc: Global) -> Result<(), AllocError>
        ensures next { OnOk result (self.new.next ≡ self.old.next) }
        ensures same { OnOk result ((weight : Entry → ℕ) → weight_of weight self.new.runs
            ≡ weight_of weight self.old.runs + sum_by weight self.old.recent.items) }
        ensures sealed { OnOk result (self.new.recent.items ≡ []) }
    {
        let recent = replace(&mut self.recent, Vec::new(alloc));
        self.runs.add(Run::of(recent))
    }

    // Makes a run if the entries of another row, which are two at most, do not fit.
    fn make_room(&mut self, alloc: Global) -> Result<(), AllocError>
        ensures { OnOk result ((rows : List RowValue) → AreIndexed rows self.old → AreIndexed rows self.new) }
    {
        if self.recent.len() < RUN_SIZE - 1 {
            return Ok(());
        }
        self.seal(alloc)?;
        self.recent.reserve_exact(RUN_SIZE)?;
        Ok(())
    }

    // Merges some entries of the runs if it is time for that.
    fn merge_some(&mut self, alloc: Global) -> Result<(), AllocError>
        ensures { OnOk result ((rows : List RowValue) → AreIndexed rows self.old → AreIndexed rows self.new) }
    {
        if self.next % ROW_COUNT != 0 {
            return Ok(());
        }
        self.runs.merge_some(alloc, MERGE_COUNT)
    }

    /// Adds the next row, which has these identifiers.
    pub(crate) fn add(&mut self, alloc: Global, identifiers: &Identifiers) -> Result<(), AllocError>
        ensures { OnOk result ((rows : List RowValue) (row : RowValue) → length rows < file_limit
            → row.identifiers ≡ identifiers.now → AreIndexed rows self.old → AreIndexed (rows ++ row ∷ []) self.new) }
    {
        self.make_room(alloc)?;
        add_entries(&mut self.recent, self.next, identifiers)?;
        self.next = self.next.saturating_add(1);
        self.merge_some(alloc)
    }

    /// Returns the index of the rows.
    pub(crate) fn finish(mut self, alloc: Global) -> Result<Index, AllocError>
        ensures { IfOk result (λ index. (rows : List RowValue) → length rows ≤ file_limit → AreIndexed rows self
            → IsIndexOf rows index) }
    {
        one_identifier_for_key();
        self.seal(alloc)?;
        let IndexBuilder { runs, .. } = self;
        runs.finish(alloc)
    }
}

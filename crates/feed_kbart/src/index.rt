//! The index of rows by identifier: two columns, sorted by the identifiers' numbers.
ghost use Rattle.std.specs.Prelude.{◌≡◌, ◌+◌, IfOk};
ghost use Rattle.feed_kbart.specs.Index.{IsTable, places_beside};
ghost use Rattle.feed_kbart.specs.Runs.{HasEntries, run_weight};

use crate::merge::next_entry;
use crate::run::Run;
use std::alloc::{AllocError, Global};

/// The places of rows by identifier. Each number is paired with the place of a row that has the identifier.
#[derive(Debug, Drop)]
pub(crate) struct Index {
    pub(crate) numbers: Vec<u32>,
    pub(crate) places: Vec<u32>,
}

impl Index {
    /// Merges two runs into the columns of an index.
    pub(crate) fn of(alloc: Global, left: &Run, right: &Run) -> Result<Index, AllocError>
        ensures { IfOk result (HasEntries (λ weight. run_weight weight left.now + run_weight weight right.now)) }
    {
        let count = left.len() + right.len();
        let mut numbers = Vec::with_capacity(alloc, count)?;
        let mut places = Vec::with_capacity(alloc, count)?;
        let mut at = (0, 0);
        for _ in 0..count {
            let (entry, next) = next_entry(&left.entries, &right.entries, at);
            numbers.push(entry.number)?;
            places.push(entry.place)?;
            at = next;
        }
        Ok(Index { numbers, places })
    }

    /// Returns the places that are paired with a number.
    pub(crate) fn places_beside(&self, number: u32) -> &[u32]
        requires { IsTable self.now }
        ensures { result.now ≡ places_beside number self.now.numbers.items self.now.places.items }
    {
        let first = self.numbers.partition_point(|one| *one < number);
        let end = self.numbers.partition_point(|one| *one <= number);
        &self.places[first..end]
    }
}

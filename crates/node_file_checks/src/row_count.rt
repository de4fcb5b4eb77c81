//! Counts the rows of a list from its front on, while its bytes arrive.
ghost use Rattle.std.specs.Prelude.{◌≡◌, ◌≤◌, ◌+◌, ◌++◌, ℕ, List, [], length, IfOk, IfSome};
ghost use Rattle.feed_kbart.specs.ListChecks.{IsCheckOfList};
ghost use Rattle.node_file_checks.specs.RowCounts.{AreCountsOf, HasCounted, seen_with};

use crate::list_counts::ListCounts;
use feed_kbart::{KbartFault, ListCheck};
use std::alloc::{AllocError, Global};

/// The check of a list up to the first byte that has not arrived. It is gone if memory ran out.
#[derive(Drop)]
pub struct RowCount {
    pub(crate) check: Option<ListCheck>,
    pub(crate) count: u64,
}

// Receives the next bytes, as far as memory lasts.
fn step(check: Option<ListCheck>, alloc: Global, bytes: &[u8]) -> Option<ListCheck>
    ensures { (seen : List ℕ) → IfSome check (IsCheckOfList seen)
        → IfSome result (IsCheckOfList (seen ++ bytes.now)) }
{
    match check?.step(alloc, bytes) {
        Ok(check) => Some(check),
        Err(_) => None,
    }
}

impl RowCount {
    /// Begins before the first byte.
    pub fn new(alloc: Global) -> RowCount
        ensures { HasCounted result [] }
    {
        RowCount {
            check: Some(ListCheck::new(alloc)),
            count: 0,
        }
    }

    /// Returns the number of bytes.
    pub fn count(&self) -> u64
        ensures { (seen : List ℕ) → HasCounted self.now seen → result ≡ length seen }
    {
        self.count
    }

    /// Adds the bytes from the place `first` to before `end`, those behind the bytes that arrived before.
    pub fn add(&mut self, alloc: Global, first: u64, end: u64, bytes: &[u8])
        requires { end ≡ first + length bytes.now }
        ensures { (seen : List ℕ) → HasCounted self.old seen → first ≤ length seen
            → HasCounted self.new (seen_with seen first bytes.now) }
    {
        if end > self.count {
            let known = self.count.saturating_sub(first) as usize;
            self.check = step(self.check.take(), alloc, &bytes[known..]);
            self.count = end;
        }
    }

    /// Ends the count, and returns the counts of a good list, or none of a bad one.
    ///
    /// # Errors
    ///
    /// Running out of memory, now or before.
    pub fn finish(&mut self, alloc: Global) -> Result<Option<ListCounts>, AllocError>
        ensures counts { (seen : List ℕ) → HasCounted self.old seen → IfOk result (AreCountsOf seen) }
        ensures same { (seen : List ℕ) → HasCounted self.old seen → HasCounted self.new seen }
    {
        let Some(check) = self.check.take() else {
            return Err(AllocError);
        };
        match check.finish(alloc) {
            Ok(holdings) => Ok(Some(ListCounts::of(&holdings))),
            Err(KbartFault::Bad(_)) => Ok(None),
            Err(_) => Err(AllocError),
        }
    }
}

//! The merge of two sorted runs, in portions.
ghost use Rattle.std.specs.Prelude.{◌≡◌, ◌≤◌, ◌<◌, ◌+◌, ◌-◌, ◌++◌, ℕ, List, [], ◌∷◌, IfOk, length};
ghost use Rattle.feed_kbart.specs.Entries.{AreMerged, AreSorted};
ghost use Rattle.feed_kbart.specs.declared.entry.Entry.{Entry};

use crate::entry::Entry;
use crate::run::Run;
use std::alloc::{AllocError, Global};

/// Two runs whose first entries are merged.
#[derive(Drop)]
pub(crate) struct Merge {
    left: Run,
    right: Run,
    // How many entries of each run are merged.
    left_count: usize,
    right_count: usize,
    merged: Vec<Entry>,
    ghost so_far: { AreMerged left.entries.items right.entries.items left_count right_count merged.items },
}

/// Returns the next entry of two runs, so many of whose entries are merged, and how many of each are merged with it. Of
/// equal entries that of the first run comes first.
#[inline]
pub(crate) fn next_entry(
    left: &[Entry],
    right: &[Entry],
    at: (usize, usize),
) -> (Entry, (usize, usize))
    requires sorted { AreSorted left.now × AreSorted right.now }
    requires within { (at.0 ≤ length left.now) × (at.1 ≤ length right.now) }
    requires some { at.0 + at.1 < length left.now + length right.now }
    ensures merged { (merged : List Entry) → AreMerged left.now right.now at.0 at.1 merged
        → AreMerged left.now right.now result.1.0 result.1.1 (merged ++ result.0 ∷ []) }
    ensures more { result.1.0 + result.1.1 ≡ at.0 + at.1 + 1 }
{
    let (i, j) = at;
    if i < left.len() && (j == right.len() || left[i].key() <= right[j].key()) {
        (left[i], (i + 1, j))
    } else {
        (right[j], (i, j + 1))
    }
}

// Merges so many more entries of two runs. Returns how many of each are merged then.
fn merge_more(
    left: &[Entry],
    right: &[Entry],
    from: (usize, usize),
    count: usize,
    merged: &mut Vec<Entry>,
) -> Result<(usize, usize), AllocError>
    requires sorted { AreSorted left.now × AreSorted right.now }
    requires so_far { AreMerged left.now right.now from.0 from.1 merged.old.items }
    requires few { from.0 + from.1 + count ≤ length left.now + length right.now }
    ensures merged { IfOk result (λ to. AreMerged left.now right.now to.0 to.1 merged.new.items) }
    ensures more { IfOk result (λ to. to.0 + to.1 ≡ from.0 + from.1 + count) }
{
    let mut at = from;
    for _ in 0..count {
        let (entry, next) = next_entry(left, right, at);
        merged.push(entry)?;
        at = next;
    }
    Ok(at)
}

impl Merge {
    ghost use Rattle.feed_kbart.specs.Runs.{left_over, run_weight};

    /// Begins to merge two runs. The memory of the merged run is allocated now.
    pub(crate) fn new(alloc: Global, left: Run, right: Run) -> Result<Merge, AllocError>
        ensures { IfOk result (λ merge. (merge.left ≡ left) × (merge.right ≡ right)) }
    {
        let merged = Vec::with_capacity(alloc, left.len() + right.len())?;
        Ok(Merge {
            left,
            right,
            left_count: 0,
            right_count: 0,
            merged,
        })
    }

    /// Returns how many entries are left to merge.
    pub(crate) fn left_over(&self) -> usize
        ensures { result ≡ left_over self.now }
    {
        (self.left.len() - self.left_count) + (self.right.len() - self.right_count)
    }

    /// Merges so many more entries, or all that are left if they are fewer.
    pub(crate) fn step(self, count: usize) -> Result<Merge, AllocError>
        ensures runs { IfOk result (λ merge. (merge.left ≡ self.left) × (merge.right ≡ self.right)) }
        ensures more { IfOk result (λ merge. left_over merge ≡ left_over self - count) }
    {
        let most = self.left_over();
        let more = if count < most { count } else { most };
        let Merge {
            left,
            right,
            left_count,
            right_count,
            mut merged,
            ..
        } = self;
        let from = (left_count, right_count);
        let (left_count, right_count) = merge_more(
            &left.entries,
            &right.entries,
            from,
            more,
            &mut merged,
        )?;
        Ok(Merge {
            left,
            right,
            left_count,
            right_count,
            merged,
        })
    }

    /// Merges all that is left, and returns the merged run.
    pub(crate) fn finish(self) -> Result<Run, AllocError>
        ensures { IfOk result (λ run. (weight : Entry → ℕ)
            → run_weight weight run ≡ run_weight weight self.left + run_weight weight self.right) }
    {
        let count = self.left_over();
        let Merge { merged, .. } = self.step(count)?;
        Ok(Run { entries: merged })
    }
}

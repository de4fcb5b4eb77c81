//! The merge of two sorted runs of entries, in portions.
ghost use Rattle.std.specs.Prelude.{◌≡◌, ◌≤◌, ◌<◌, ◌+◌, ◌-◌, ◌++◌, ℕ, List, [], ◌∷◌, IfOk, length, sum_by};
ghost use Rattle.node_site.specs.HoldingsEntries.{AreMerged, IsInOrder, is_below};
ghost use Rattle.node_site.specs.declared.entry.Entry.{Entry};

use crate::entry::{Entry, compare};
use std::alloc::{AllocError, Global};
use std::cmp::Ordering;

/// Two runs whose first entries are merged.
#[derive(Drop)]
pub(crate) struct Merge {
    left: Vec<Entry>,
    right: Vec<Entry>,
    // How many entries of each run are merged.
    left_count: usize,
    right_count: usize,
    merged: Vec<Entry>,
}

fn is_below(text: &[u8], one: Entry, other: Entry) -> bool
    ensures { result ≡ is_below text.now one other }
{
    compare(text, one, other) == Ordering::Less
}

// Returns the next entry of two runs, so many of whose entries are merged, and how many of each are merged with it. Of
// equal entries that of the first run comes first.
fn next_entry(
    text: &[u8],
    left: &[Entry],
    right: &[Entry],
    at: (usize, usize),
) -> (Entry, (usize, usize))
    requires left { IsInOrder text.now left.now }
    requires right { IsInOrder text.now right.now }
    requires within { (at.0 ≤ length left.now) × (at.1 ≤ length right.now) }
    requires some { at.0 + at.1 < length left.now + length right.now }
    ensures merged { (merged : List Entry) → AreMerged text.now left.now right.now at.0 at.1 merged
        → AreMerged text.now left.now right.now result.1.0 result.1.1 (merged ++ result.0 ∷ []) }
    ensures more { result.1.0 + result.1.1 ≡ at.0 + at.1 + 1 }
{
    let (i, j) = at;
    if i == left.len() {
        return (right[j], (i, j + 1));
    }
    if j == right.len() {
        return (left[i], (i + 1, j));
    }
    if is_below(text, right[j], left[i]) {
        (right[j], (i, j + 1))
    } else {
        (left[i], (i + 1, j))
    }
}

// Merges so many more entries of two runs. Returns how many of each are merged then.
fn merge_more(
    text: &[u8],
    left: &[Entry],
    right: &[Entry],
    from: (usize, usize),
    count: usize,
    merged: &mut Vec<Entry>,
) -> Result<(usize, usize), AllocError>
    requires left { IsInOrder text.now left.now }
    requires right { IsInOrder text.now right.now }
    requires so_far { AreMerged text.now left.now right.now from.0 from.1 merged.old.items }
    requires few { from.0 + from.1 + count ≤ length left.now + length right.now }
    ensures merged { IfOk result (λ to. AreMerged text.now left.now right.now to.0 to.1 merged.new.items) }
    ensures more { IfOk result (λ to. to.0 + to.1 ≡ from.0 + from.1 + count) }
{
    let mut at = from;
    for _ in 0..count {
        let (entry, next) = next_entry(text, left, right, at);
        merged.push(entry)?;
        at = next;
    }
    Ok(at)
}

impl Merge {
    ghost use Rattle.node_site.specs.HoldingsEntries.{IsMerge, left_over, merge_weight};

    /// Begins to merge two runs. The memory of the merged run is allocated now.
    pub(crate) fn new(
        alloc: Global,
        left: Vec<Entry>,
        right: Vec<Entry>,
    ) -> Result<Merge, AllocError>
        ensures is { IfOk result (λ merge. (text : List ℕ) → IsInOrder text left.items → IsInOrder text right.items
            → IsMerge text merge) }
        ensures same { IfOk result (λ merge. (weight : Entry → ℕ)
            → merge_weight weight merge ≡ sum_by weight left.items + sum_by weight right.items) }
        ensures left { IfOk result (λ merge. left_over merge ≡ length left.items + length right.items) }
    {
        let merged = Vec::with_capacity(alloc, left.len() + right.len())?;
        Ok(Merge {
            left,
            right,
            left_count: 0,
            right_count: 0,
            merged,
        })
    }

    /// Returns how many entries are left to merge.
    pub(crate) fn left_over(&self) -> usize
        ensures { result ≡ left_over self.now }
    {
        self.left.len().saturating_sub(self.left_count)
            + self.right.len().saturating_sub(self.right_count)
    }

    /// Merges so many more entries, or all that are left if they are fewer.
    pub(crate) fn step(self, text: &[u8], count: usize) -> Result<Merge, AllocError>
        requires { IsMerge text.now self }
        ensures is { IfOk result (IsMerge text.now) }
        ensures same { IfOk result (λ merge. (weight : Entry → ℕ)
            → merge_weight weight merge ≡ merge_weight weight self) }
        ensures more { IfOk result (λ merge. left_over merge ≡ left_over self - count) }
    {
        let most = self.left_over();
        let more = if count < most { count } else { most };
        let Merge {
            left,
            right,
            left_count,
            right_count,
            mut merged,
        } = self;
        let from = (left_count, right_count);
        let (left_count, right_count) = merge_more(text, &left, &right, from, more, &mut merged)?;
        Ok(Merge {
            left,
            right,
            left_count,
            right_count,
            merged,
        })
    }

    /// Returns the merged run.
    pub(crate) fn run(self) -> Vec<Entry>
        requires { left_over self ≡ 0 }
        ensures sorted { (text : List ℕ) → IsMerge text self → IsInOrder text result.items }
        ensures same { (text : List ℕ) → IsMerge text self
            → (weight : Entry → ℕ) → sum_by weight result.items ≡ merge_weight weight self }
    {
        self.merged
    }
}

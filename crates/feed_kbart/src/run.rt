//! A sorted run of entries.
ghost use Rattle.std.specs.Prelude.{◌≡◌, ℕ, length, sum_by};
ghost use Rattle.feed_kbart.specs.Entries.{AreSorted};
ghost use Rattle.feed_kbart.specs.declared.entry.Entry.{Entry};

use crate::entry::Entry;

/// Entries in the order of their keys.
#[derive(Drop)]
pub(crate) struct Run {
    pub(crate) entries: Vec<Entry>,
    ghost sorted: { AreSorted entries.items },
}

impl Run {
    /// Sorts entries. It takes no memory.
    pub(crate) fn of(mut entries: Vec<Entry>) -> Run
        ensures { (weight : Entry → ℕ) → sum_by weight result.entries.items ≡ sum_by weight entries.items }
    {
        entries.sort_unstable_by_key(|entry| entry.key());
        Run { entries }
    }

    /// Returns the number of entries.
    pub(crate) fn len(&self) -> usize
        ensures { result ≡ length self.now.entries.items }
    {
        self.entries.len()
    }
}

//! The remains of the releases that a switch removed. They are freed in portions, so that no step takes long.
ghost use Rattle.std.specs.Prelude.{◌<◌, ◌≤◌, ◌+◌, IsTrue, length};
ghost use Rattle.feed_releases.specs.Leftovers.{left_of, left_of_all, portion};

use crate::release::Release;
use feed_kbart::RetiredHoldings;
use feed_parts::Part;

// The most parts that are freed at once. A part has at most 1 MiB, so this takes about a millisecond.
const PORTION: usize = 16;

/// The remains of a release: parts of its file, and its holdings.
#[derive(Drop)]
pub(crate) struct Leftover {
    pub(crate) parts: Vec<Part>,
    pub(crate) holdings: Option<RetiredHoldings>,
}

impl Leftover {
    // Frees a portion. Returns whether anything is left.
    fn free_some(&mut self) -> bool
        ensures less { IsTrue result → left_of self.new < left_of self.old }
        ensures few { length self.old.parts.items ≤ length self.new.parts.items + portion }
    {
        if !self.parts.is_empty() {
            self.parts
                .truncate(self.parts.len().saturating_sub(PORTION));
            return true;
        }
        match &mut self.holdings {
            Some(holdings) => holdings.free_portion(),
            None => false,
        }
    }
}

/// Adds what is left of a release. Without memory for that, it is freed at once.
pub(crate) fn add(leftovers: &mut Vec<Leftover>, release: Release) {
    let _ = leftovers.push(release.retire());
}

/// Frees a portion of the last of the leftovers.
pub(crate) fn free_portion(leftovers: &mut Vec<Leftover>)
    ensures { 0 < left_of_all leftovers.old.items
        → left_of_all leftovers.new.items < left_of_all leftovers.old.items }
{
    let Some(mut leftover) = leftovers.pop() else {
        return;
    };
    if leftover.free_some() {
        // There is room, since one was removed.
        leftovers.push_reserved(leftover);
    }
}

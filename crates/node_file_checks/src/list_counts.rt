//! The counts of a list: its rows and its skipped records.
ghost use Rattle.std.specs.Prelude.{◌≡◌};
ghost use Rattle.feed_model.specs.History.{History};
ghost use Rattle.feed_model.specs.Content.{IsContent};
ghost use Rattle.feed_releases.specs.Feeds.{recorded};
ghost use Rattle.node_file_checks.specs.RowCounts.{AreActiveCounts, AreCounts, rows_before};

use feed_kbart::Holdings;
use feed_keep::Keep;
use feed_releases::Feed;

/// How many rows a list has, and how many of its records are skipped.
#[derive(Clone, Copy)]
pub struct ListCounts {
    pub rows: usize,
    pub aside: usize,
}

impl ListCounts {
    /// Returns the counts of a list.
    pub fn of(holdings: &Holdings) -> ListCounts
        ensures { AreCounts holdings.now result }
    {
        ListCounts {
            rows: holdings.rows().len(),
            aside: holdings.aside().len(),
        }
    }
}

/// Returns the counts of the active release of a package, or none if it has none.
pub fn active_counts<K: Keep>(feed: &Feed<K>, package: &[u8]) -> Option<ListCounts>
    ensures { (h : History) → IsContent (recorded feed.now) h → AreActiveCounts h «package».now result }
{
    match feed.active(package) {
        Some(active) => Some(ListCounts::of(active.holdings())),
        None => None,
    }
}

/// Returns the rows of a release that may be replaced, or 0 without a release.
pub fn rows_before(counts: Option<ListCounts>) -> usize
    ensures { result ≡ rows_before counts }
{
    match counts {
        Some(counts) => counts.rows,
        None => 0,
    }
}

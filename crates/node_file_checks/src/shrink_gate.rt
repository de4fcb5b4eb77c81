//! Holds a list back before its last bytes are submitted, if it has far fewer rows than the active one.
ghost use Rattle.std.specs.Prelude.{◌≡◌, ℕ, List, [], length, IfSome, OnOk};
ghost use Rattle.feed_model.specs.History.{History};
ghost use Rattle.feed_model.specs.Content.{IsContent};
ghost use Rattle.feed_releases.specs.Feeds.{recorded};
ghost use Rattle.node_file_checks.specs.RowCounts.{HasCounted, is_held, seen_with};
ghost use Rattle.node_file_checks.specs.ShrinkGates.{IsChecked, IsGateBy, IsWholeChecked};

use crate::list_counts::{ListCounts, active_counts, rows_before};
use crate::row_count::RowCount;
use feed_http::FilePart;
use feed_keep::Keep;
use feed_names::ReleaseName;
use feed_releases::Feed;
use std::alloc::Global;

/// A list that is held: its counts, and the rows of the active release.
#[derive(Clone, Copy)]
pub struct HeldList {
    pub counts: ListCounts,
    pub before: usize,
}

/// Why bytes of a list are not submitted.
#[derive(Clone, Copy)]
pub enum Hindrance {
    /// The list ends with them, and has too few rows.
    Held(HeldList),
    /// Bytes before them are missing, or they are not inside the list.
    OtherRange,
    Memory,
}

/// The bound of a node, and the rows of the list that it fetches.
#[derive(Drop)]
pub struct ShrinkGate {
    /// How much of the rows may go, in percent.
    pub(crate) percent: u64,
    pub(crate) rows: RowCount,
}

/// Returns whether a list with this many rows is held in place of one with `before`, if at most this percent of the
/// rows may go.
fn is_held(percent: u64, before: usize, rows: usize) -> bool
    ensures { result ≡ is_held percent before rows }
{
    (rows as u128) * 100 < (before as u128) * (100u64.saturating_sub(percent) as u128)
}

/// Returns the gate of a fetch by a node with this bound, unless its client accepts any list.
pub fn gate_by(alloc: Global, bound: Option<u64>, is_accepted: bool) -> Option<ShrinkGate>
    ensures bound { IsGateBy bound is_accepted result }
    ensures counted { IfSome result (λ gate. HasCounted gate.rows []) }
{
    match bound {
        Some(percent) if !is_accepted => Some(ShrinkGate {
            percent,
            rows: RowCount::new(alloc),
        }),
        _ => None,
    }
}

impl ShrinkGate {
    /// Returns the number of bytes whose rows are counted.
    pub fn count(&self) -> u64
        ensures { (seen : List ℕ) → HasCounted self.now.rows seen → result ≡ length seen }
    {
        self.rows.count()
    }

    // Checks a whole list, whose bytes are counted.
    fn check_whole<K: Keep>(
        &mut self,
        alloc: Global,
        feed: &Feed<K>,
        name: &ReleaseName,
    ) -> Result<(), Hindrance>
        ensures checked { (h : History) (text : List ℕ) → IsContent (recorded feed.now) h
            → HasCounted self.old.rows text → IsWholeChecked h name.now.package_name self.old.percent text result }
        ensures counted { (text : List ℕ) → HasCounted self.old.rows text → HasCounted self.new.rows text }
        ensures percent { self.new.percent ≡ self.old.percent }
    {
        let Ok(counts) = self.rows.finish(alloc) else {
            return Err(Hindrance::Memory);
        };
        let Some(counts) = counts else {
            return Ok(());
        };
        let before = rows_before(active_counts(feed, name.package()));
        if is_held(self.percent, before, counts.rows) {
            return Err(Hindrance::Held(HeldList { counts, before }));
        }
        Ok(())
    }

    /// Counts the rows of a part of a list, before it is submitted to the feed as a part of the release.
    ///
    /// # Errors
    ///
    /// `Held` if the list ends with them, is good, and has too few rows, `OtherRange`, and `Memory`.
    pub fn check<K: Keep>(
        &mut self,
        alloc: Global,
        feed: &Feed<K>,
        name: &ReleaseName,
        part: &FilePart<'_>,
    ) -> Result<(), Hindrance>
        ensures checked { (h : History) (seen : List ℕ) → IsContent (recorded feed.now) h
            → HasCounted self.old.rows seen
            → IsChecked h name.now.package_name self.old.percent seen part.now.first part.now.bytes.now part.now.length
            result }
        ensures counted { (seen : List ℕ) → HasCounted self.old.rows seen
            → OnOk result (HasCounted self.new.rows (seen_with seen part.now.first part.now.bytes.now)) }
        ensures percent { self.new.percent ≡ self.old.percent }
    {
        let FilePart {
            first,
            length: size,
            bytes,
        } = *part;
        let Some(end) = first.checked_add(bytes.len() as u64) else {
            return Err(Hindrance::OtherRange);
        };
        if first > self.rows.count() || end > size {
            return Err(Hindrance::OtherRange);
        }
        self.rows.add(alloc, first, end, bytes);
        if self.rows.count() < size {
            return Ok(());
        }
        self.check_whole(alloc, feed, name)
    }
}

//! The traits `Keep`, what a feed requires of the storage of its records, and `Capacity`, how many it has room for.
ghost use Rattle.std.specs.Prelude.{◌≡◌, ℕ, Err, IfOk, OnOk, OnErr, IsErrOf};
ghost use Rattle.std.specs.List.{IsDistinct};
ghost use Rattle.feed_names.specs.ReleaseName.{name_eq};
ghost use Rattle.feed_model.specs.Content.{Content, names};
ghost use Rattle.feed_model.specs.Change.{after, IsAllowedWithin};
ghost use Rattle.feed_keep.specs.Capacity.{capacity_with};
ghost use Rattle.feed_keep.specs.Shown.{shown, shown_change};
ghost use Rattle.feed_keep.specs.Order.{IsInOrder};
ghost use Rattle.feed_keep.specs.Cause.{IsCounted};
ghost use Rattle.feed_keep.specs.Loads.{one_more};

use crate::record::Record;
use feed_kbart::BadFile;
use feed_model::KeepFault;
use feed_names::ReleaseName;
use feed_parts::Part;
use std::alloc::Global;

/// A change of the stored records. It is made completely or not at all. Parts are in order, disjoint from one another
/// and from the stored ones, and each has 1 to `PIECE_LIMIT` bytes.
#[derive(Clone, Copy)]
pub enum Change<'a> {
    /// A new record without parts: staged, or broken if the size is 0.
    Add {
        name: &'a ReleaseName,
        size: u64,
    },
    /// More parts of a staged release, which is still incomplete with them.
    Pieces {
        name: &'a ReleaseName,
        parts: &'a [Part],
    },
    /// The last parts of a staged release whose file is bad, and why it is bad.
    Break {
        name: &'a ReleaseName,
        parts: &'a [Part],
        reason: BadFile,
    },
    /// The last parts of a staged release whose file is good. Removes the package's records of earlier days.
    Activate {
        name: &'a ReleaseName,
        parts: &'a [Part],
    },
}

/// A store of the records of a feed, which persists them between two runs of its node.
///
/// Its content is the committed records. A clause about the content holds if the keeper is `clean` at the end of the
/// call, and then it was clean at its start. Memory is always clean. A file is clean as long as nobody else writes it
/// and the disk returns what was written.
pub trait Keep: Drop {
    /// The records: one for each name, in the store of a feed.
    ghost content: { Self → Content };

    /// The content is reliable: it is what was committed.
    ghost clean: { Self → Type 0 };

    /// The store holds a list of records, one for each name. A list in memory may have a name twice, and a table may
    /// have rows that are not a record.
    ghost listed: { Self → Type 0 };

    /// The number of device failures so far.
    ghost failed: { Self → ℕ };

    /// The number of calls of `load` so far. It saturates at its greatest value.
    ghost loads: { Self → ℕ };

    /// How many records it has room for beside the 256 of every store: none, unless an implementation says so.
    ghost more: { ℕ } = { 0 };

    /// Returns the number of device failures so far. It saturates at its greatest value.
    fn failures(&self) -> u64
        ensures { result ≡ failed self.now };

    /// Returns all records, ordered by the texts of their names, each with its parts ordered by their first places.
    /// Does not change the store. The error is `Damaged` if the store does not hold a list of records.
    fn load(&mut self, alloc: Global) -> Result<Vec<Record>, KeepFault>
        ensures records { IfOk result (λ records. clean self.new → shown records.items ≡ content self.old) }
        ensures distinct { IfOk result (λ records. IsDistinct name_eq (names (shown records.items))) }
        ensures order { IfOk result (λ records. IsInOrder (shown records.items)) }
        ensures listed { IfOk result (λ _. clean self.new → ∥ listed self.old ∥₁) }
        ensures damaged { IsErrOf result KeepFault.Damaged → clean self.new → ¬ ∥ listed self.old ∥₁ }
        ensures same { clean self.new → content self.new ≡ content self.old }
        ensures stays { clean self.new → ∥ listed self.old ∥₁ → ∥ listed self.new ∥₁ }
        ensures clean { clean self.new → clean self.old }
        ensures loaded { loads self.new ≡ one_more (loads self.old) }
        ensures device { IsCounted (result ≡ Err KeepFault.Device) (failed self.old) (failed self.new) };

    /// Makes the whole change, or returns an error and changes nothing. The store must hold a list of records. It still
    /// holds one afterwards, and the error is never `Damaged`.
    fn commit(&mut self, change: &Change<'_>) -> Result<(), KeepFault>
        requires listed { clean self.old → ∥ listed self.old ∥₁ }
        requires allowed { clean self.old
            → IsAllowedWithin (capacity_with more) (shown_change change.now) (content self.old) }
        ensures made { OnOk result (clean self.new → content self.new
            ≡ after (shown_change change.now) (content self.old)) }
        ensures refused { OnErr result (clean self.new → content self.new ≡ content self.old) }
        ensures listed { clean self.new → ∥ listed self.new ∥₁ }
        ensures clean { clean self.new → clean self.old }
        ensures undamaged { ¬ (IsErrOf result KeepFault.Damaged) }
        ensures unloaded { loads self.new ≡ loads self.old }
        ensures device { IsCounted (result ≡ Err KeepFault.Device) (failed self.old) (failed self.new) };
}

/// A store that says how many records it has room for. `Feed::open_to_capacity` opens a feed that has as many.
pub trait Capacity: Keep {
    /// Returns the most records that the store has room for, which are 256 or more.
    fn capacity(&self) -> usize
        ensures { result ≡ capacity_with Self.more };
}

/// The most records of a large store.
pub const LARGE_CAPACITY: usize = 4_096;

//! Commits a change to the keeper of a feed.
ghost use Rattle.feed_model.specs.Change.{IsAllowedWithin};
ghost use Rattle.feed_keep.specs.Capacity.{capacity_with};
ghost use Rattle.feed_keep.specs.Shown.{shown_change};
ghost use Rattle.feed_releases.specs.Committed.{IsCommitted};

use feed_keep::{Change, Keep};
use feed_model::{KeepFault, Refusal};

/// Commits a change, and converts the keeper's error to a refusal of the feed.
pub(crate) fn commit<K: Keep>(keeper: &mut K, change: &Change<'_>) -> Result<(), Refusal>
    requires listed { K.clean keeper.old → ∥ K.listed keeper.old ∥₁ }
    requires allowed { K.clean keeper.old
        → IsAllowedWithin (capacity_with K.more) (shown_change change.now) (K.content keeper.old) }
    ensures listed { K.clean keeper.new → ∥ K.listed keeper.new ∥₁ }
    ensures committed { IsCommitted K.Keep (shown_change change.now) keeper.old keeper.new result }
{
    match keeper.commit(change) {
        Ok(()) => Ok(()),
        Err(KeepFault::Device) => Err(Refusal::Device),
        Err(_) => Err(Refusal::Memory),
    }
}

//! Opening a feed in steps of bounded work.
ghost use Rattle.std.specs.Prelude.{◌≡◌, ◌≤◌};
ghost use Rattle.feed_model.specs.Reply.{max_held};
ghost use Rattle.feed_keep.specs.Capacity.{capacity_with};

use crate::feed::reopen::{Reopening, ReopeningStep};
use crate::feed::{Feed, OpenFault};
use feed_keep::{Capacity, Keep};
use feed_limits::RELEASE_LIMIT;
use feed_model::KeepFault;
use std::alloc::Global;

/// A feed that is being opened: it checks the records of its keeper in steps.
#[derive(Drop)]
pub struct Opening<K: Keep> {
    alloc: Global,
    keeper: K,
    reopening: Reopening,
    ghost mirrors: { K.clean keeper → K.content keeper ≡ reopening.content },
    ghost listed: { K.clean keeper → ∥ K.listed keeper ∥₁ },
    ghost least: { max_held ≤ reopening.most },
    ghost room: { reopening.most ≤ capacity_with K.more },
}

/// A feed after a step of its opening.
#[derive(Drop)]
pub enum OpeningStep<K: Keep> {
    /// There is more to check.
    Pending(Opening<K>),
    /// The feed is open.
    Opened(Feed<K>),
}

impl<K: Keep> Opening<K> {
    ghost use Rattle.std.specs.Prelude.{◌⊎◌, IfOk, IfErr, MatchResult};
    ghost use Rattle.feed_model.specs.Content.{within};
    ghost use Rattle.feed_model.specs.Sound.{IsSound};
    ghost use Rattle.feed_keep.specs.Cause.{IsCounted};
    ghost use Rattle.feed_releases.specs.Openings.{IsLoaded, IsOpeningStep, opening_keeper, opening_most};

    /// Loads the records of a keeper, once.
    ///
    /// # Errors
    ///
    /// Those of the keeper, and `Damaged` if there are more than 256 records.
    pub fn begin(alloc: Global, keeper: K) -> Result<Opening<K>, OpenFault<K>>
        ensures loaded { MatchResult result (λ opening. IsLoaded K.Keep keeper (opening_keeper opening))
            (λ fault. IsLoaded K.Keep keeper fault.keeper) }
        ensures most { IfOk result (λ opening. opening_most opening ≡ max_held) }
        ensures counted { IfOk result (λ opening. K.failed (opening_keeper opening) ≡ K.failed keeper) }
        ensures device { IfErr result (λ fault. IsCounted (fault.cause ≡ KeepFault.Device) (K.failed keeper)
            (K.failed fault.keeper)) }
        ensures damaged { IfErr result (λ fault. fault.cause ≡ KeepFault.Damaged → K.clean fault.keeper
            → ∥ K.listed keeper ∥₁ → ¬ (IsSound (within max_held (K.content keeper)))) }
    {
        Opening::begin_within(alloc, keeper, RELEASE_LIMIT)
    }

    // Loads the records of a keeper, once, for a feed that may record at most so many releases.
    pub(crate) fn begin_within(
        alloc: Global,
        mut keeper: K,
        most: usize,
    ) -> Result<Opening<K>, OpenFault<K>>
        requires least { max_held ≤ most }
        requires room { most ≤ capacity_with K.more }
        ensures loaded { MatchResult result (λ opening. IsLoaded K.Keep keeper (opening_keeper opening))
            (λ fault. IsLoaded K.Keep keeper fault.keeper) }
        ensures most { IfOk result (λ opening. opening_most opening ≡ most) }
        ensures counted { IfOk result (λ opening. K.failed (opening_keeper opening) ≡ K.failed keeper) }
        ensures device { IfErr result (λ fault. IsCounted (fault.cause ≡ KeepFault.Device) (K.failed keeper)
            (K.failed fault.keeper)) }
        ensures damaged { IfErr result (λ fault. fault.cause ≡ KeepFault.Damaged → K.clean fault.keeper
            → ∥ K.listed keeper ∥₁ → ¬ (IsSound (within most (K.content keeper)))) }
    {
        let records = match keeper.load(alloc) {
            Ok(records) => records,
            Err(cause) => return Err(OpenFault { cause, keeper }),
        };
        match Reopening::of(alloc, records, most) {
            Ok(reopening) => Ok(Opening {
                alloc,
                keeper,
                reopening,
            }),
            Err(cause) => Err(OpenFault { cause, keeper }),
        }
    }

    /// Returns the keeper.
    pub fn into_keeper(self) -> K
        ensures { result ≡ opening_keeper self }
    {
        let Opening {
            alloc: _,
            keeper,
            reopening: _,
        } = self;
        keeper
    }

    /// Reads at most 131,072 bytes of a complete file, or ends its check. `begin` and steps until the feed is open have
    /// the results of `Feed::open`.
    ///
    /// # Errors
    ///
    /// `Damaged` if no feed can have produced the records, and `Memory`.
    pub fn step(self) -> Result<OpeningStep<K>, OpenFault<K>>
        ensures step { IfOk result (IsOpeningStep self) }
        ensures kept { IfErr result (λ fault. fault.keeper ≡ opening_keeper self) }
        ensures cause { IfErr result (λ fault. (fault.cause ≡ KeepFault.Memory)
            ⊎ ((fault.cause ≡ KeepFault.Damaged)
            × (K.clean fault.keeper → ¬ (IsSound (within (opening_most self) (K.content fault.keeper)))))) }
    {
        self.advance(true)
    }

    /// Does a step. Reads each file at once unless it is read in steps.
    pub(crate) fn advance(self, in_steps: bool) -> Result<OpeningStep<K>, OpenFault<K>>
        ensures step { IfOk result (IsOpeningStep self) }
        ensures kept { IfErr result (λ fault. fault.keeper ≡ opening_keeper self) }
        ensures cause { IfErr result (λ fault. (fault.cause ≡ KeepFault.Memory)
            ⊎ ((fault.cause ≡ KeepFault.Damaged)
            × (K.clean fault.keeper → ¬ (IsSound (within (opening_most self) (K.content fault.keeper)))))) }
    {
        let Opening {
            alloc,
            keeper,
            reopening,
        } = self;
        let most = reopening.most();
        match reopening.step(alloc, in_steps) {
            Ok(ReopeningStep::Pending(reopening)) => Ok(OpeningStep::Pending(Opening {
                alloc,
                keeper,
                reopening,
            })),
            Ok(ReopeningStep::Done(releases)) => Ok(OpeningStep::Opened(Feed {
                alloc,
                keeper,
                most,
                releases,
                ahead: None,
                leftovers: Vec::new(alloc),
            })),
            Err(cause) => Err(OpenFault { cause, keeper }),
        }
    }
}

impl<K: Capacity> Opening<K> {
    ghost use Rattle.std.specs.Prelude.{IfOk, IfErr, MatchResult};
    ghost use Rattle.feed_model.specs.Content.{within};
    ghost use Rattle.feed_model.specs.Sound.{IsSound};
    ghost use Rattle.feed_keep.specs.Cause.{IsCounted};
    ghost use Rattle.feed_releases.specs.Openings.{IsLoaded, opening_keeper, opening_most};

    /// Loads the records of a keeper as `begin` does, for a feed that may record as many releases as its keeper has
    /// room for.
    ///
    /// # Errors
    ///
    /// Those of the keeper, and `Damaged` if there are more records than it has room for.
    pub fn begin_to_capacity(alloc: Global, keeper: K) -> Result<Opening<K>, OpenFault<K>>
        ensures loaded { MatchResult result (λ opening. IsLoaded K.Keep keeper (opening_keeper opening))
            (λ fault. IsLoaded K.Keep keeper fault.keeper) }
        ensures most { IfOk result (λ opening. opening_most opening ≡ capacity_with K.more) }
        ensures counted { IfOk result (λ opening. K.failed (opening_keeper opening) ≡ K.failed keeper) }
        ensures device { IfErr result (λ fault. IsCounted (fault.cause ≡ KeepFault.Device) (K.failed keeper)
            (K.failed fault.keeper)) }
        ensures damaged { IfErr result (λ fault. fault.cause ≡ KeepFault.Damaged → K.clean fault.keeper
            → ∥ K.listed keeper ∥₁ → ¬ (IsSound (within (capacity_with K.more) (K.content keeper)))) }
    {
        let most = keeper.capacity();
        Opening::begin_within(alloc, keeper, most)
    }
}

impl<K: Keep> Feed<K> {
    ghost use Rattle.std.specs.Prelude.{◌≢◌, IfErr, IfOk};
    ghost use Rattle.feed_model.specs.History.{History};
    ghost use Rattle.feed_model.specs.Content.{IsContent, within};
    ghost use Rattle.feed_model.specs.Sound.{IsSound};
    ghost use Rattle.feed_keep.specs.Cause.{IsCounted};
    ghost use Rattle.feed_keep.specs.Loads.{one_more};
    ghost use Rattle.feed_releases.specs.Feeds.{keeper_of, most_of, recorded};

    // Opens a feed that may record at most so many releases on the records of a keeper, as `open` does.
    pub(crate) fn open_within(
        alloc: Global,
        keeper: K,
        most: usize,
    ) -> Result<Feed<K>, OpenFault<K>>
        requires least { max_held ≤ most }
        requires room { most ≤ capacity_with K.more }
        ensures content { IfOk result (λ feed. K.clean (keeper_of feed) → recorded feed
            ≡ within most (K.content keeper)) }
        ensures most { IfOk result (λ feed. most_of feed ≡ most) }
        ensures sound { IfOk result (λ feed. IsSound (recorded feed)) }
        ensures clean { IfOk result (λ feed. K.clean (keeper_of feed) → K.clean keeper) }
        ensures counted { IfOk result (λ feed. K.failed (keeper_of feed) ≡ K.failed keeper) }
        ensures loaded { IfOk result (λ feed. K.loads (keeper_of feed) ≡ one_more (K.loads keeper)) }
        ensures damaged { IfErr result (λ fault. fault.cause ≡ KeepFault.Damaged → K.clean fault.keeper
            → ∥ K.listed keeper ∥₁ → ¬ (IsSound (within most (K.content keeper)))) }
        ensures legal { IfErr result (λ fault. K.clean fault.keeper → ∥ K.listed keeper ∥₁ → (h : History)
            → IsContent (within most (K.content keeper)) h → fault.cause ≢ KeepFault.Damaged) }
        ensures kept { IfErr result (λ fault. K.clean fault.keeper → K.content fault.keeper ≡ K.content keeper) }
        ensures kept_listed { IfErr result (λ fault. K.clean fault.keeper → ∥ K.listed keeper ∥₁
            → ∥ K.listed fault.keeper ∥₁) }
        ensures kept_clean { IfErr result (λ fault. K.clean fault.keeper → K.clean keeper) }
        ensures device { IfErr result (λ fault. IsCounted (fault.cause ≡ KeepFault.Device) (K.failed keeper)
            (K.failed fault.keeper)) }
        ensures kept_loaded { IfErr result (λ fault. K.loads fault.keeper ≡ one_more (K.loads keeper)) }
    {
        let mut opening = match Opening::begin_within(alloc, keeper, most) {
            Ok(opening) => opening,
            Err(fault) => return Err(fault),
        };
        loop {
            match opening.advance(false) {
                Ok(OpeningStep::Pending(further)) => opening = further,
                Ok(OpeningStep::Opened(feed)) => return Ok(feed),
                Err(fault) => return Err(fault),
            }
        }
    }
}

impl<K: Capacity> Feed<K> {
    ghost use Rattle.std.specs.Prelude.{◌≢◌, IfErr, IfOk};
    ghost use Rattle.feed_model.specs.History.{History};
    ghost use Rattle.feed_model.specs.Content.{IsContent, within};
    ghost use Rattle.feed_model.specs.Sound.{IsSound};
    ghost use Rattle.feed_keep.specs.Cause.{IsCounted};
    ghost use Rattle.feed_keep.specs.Loads.{one_more};
    ghost use Rattle.feed_releases.specs.Feeds.{keeper_of, most_of, recorded};

    /// Opens a feed on the records of a keeper as `open` does. It may record as many releases as its keeper has room
    /// for.
    ///
    /// # Errors
    ///
    /// Those of `open`, with this number in place of 256.
    pub fn open_to_capacity(alloc: Global, keeper: K) -> Result<Feed<K>, OpenFault<K>>
        ensures content { IfOk result (λ feed. K.clean (keeper_of feed) → recorded feed
            ≡ within (capacity_with K.more) (K.content keeper)) }
        ensures most { IfOk result (λ feed. most_of feed ≡ (capacity_with K.more)) }
        ensures sound { IfOk result (λ feed. IsSound (recorded feed)) }
        ensures clean { IfOk result (λ feed. K.clean (keeper_of feed) → K.clean keeper) }
        ensures counted { IfOk result (λ feed. K.failed (keeper_of feed) ≡ K.failed keeper) }
        ensures loaded { IfOk result (λ feed. K.loads (keeper_of feed) ≡ one_more (K.loads keeper)) }
        ensures damaged { IfErr result (λ fault. fault.cause ≡ KeepFault.Damaged → K.clean fault.keeper
            → ∥ K.listed keeper ∥₁ → ¬ (IsSound (within (capacity_with K.more) (K.content keeper)))) }
        ensures legal { IfErr result (λ fault. K.clean fault.keeper → ∥ K.listed keeper ∥₁ → (h : History)
            → IsContent (within (capacity_with K.more) (K.content keeper)) h → fault.cause ≢ KeepFault.Damaged) }
        ensures kept { IfErr result (λ fault. K.clean fault.keeper → K.content fault.keeper ≡ K.content keeper) }
        ensures kept_listed { IfErr result (λ fault. K.clean fault.keeper → ∥ K.listed keeper ∥₁
            → ∥ K.listed fault.keeper ∥₁) }
        ensures kept_clean { IfErr result (λ fault. K.clean fault.keeper → K.clean keeper) }
        ensures device { IfErr result (λ fault. IsCounted (fault.cause ≡ KeepFault.Device) (K.failed keeper)
            (K.failed fault.keeper)) }
        ensures kept_loaded { IfErr result (λ fault. K.loads fault.keeper ≡ one_more (K.loads keeper)) }
    {
        let most = keeper.capacity();
        Feed::open_within(alloc, keeper, most)
    }
}

//! Adding the new bytes of a piece to a release: preparing them, and committing them.
ghost use Rattle.std.specs.Prelude.{◌≡◌, ◌≤◌, ◌+◌, ℕ, List, length, IfOk, IfSome, OnOk, OnErr};
ghost use Rattle.feed_model.specs.Reply.{max_piece, missing_below};
ghost use Rattle.feed_model.specs.Content.{byte_in};
ghost use Rattle.feed_model.specs.Change.{IsAllowedWithin, merged};
ghost use Rattle.feed_keep.specs.Capacity.{capacity_with};
ghost use Rattle.feed_model.specs.Parts.{Adds, AgreesIn};
ghost use Rattle.feed_releases.specs.Committed.{IsCommitted};
ghost use Rattle.feed_releases.specs.ReleaseValue.{IsOverlapOf};
ghost use Rattle.feed_releases.specs.Standing.{reply_of, rows_of, record_after};
ghost use Rattle.feed_releases.specs.Growth.{IsGrowth, change_of, parts_of};
ghost use Rattle.feed_releases.specs.Judged.{IsJudged};
ghost use Rattle.feed_releases.specs.FileCheck.{IsCheckOf};

use crate::commit::commit;
use crate::file_check::{FileCheck, begin};
use crate::release::{Overlap, Release};
use crate::standing::Standing;
use feed_kbart::{Holdings, KbartFault, read_parts};
use feed_keep::Keep;
use feed_model::{Refusal, Reply};
use feed_parts::Segments;
use std::alloc::Global;

/// The new bytes of a piece, the number of places still missing with them, and the status of the file then.
#[derive(Drop)]
pub(crate) struct Growth {
    pub(crate) new: Segments,
    pub(crate) missing: u64,
    pub(crate) standing: Standing,
}

impl Release {
    /// Prepares the new bytes of a piece. While places are missing, the check that is running continues, or one begins.
    /// The piece that completes the file ends it. The only error is running out of memory.
    pub(crate) fn growth(
        &self,
        alloc: Global,
        running: &mut Option<FileCheck>,
        first: u64,
        bytes: &[u8],
    ) -> Result<Growth, Refusal>
        requires inside { first + length bytes.now ≤ self.now.kept.size }
        requires piece { length bytes.now ≤ max_piece }
        requires new { IsOverlapOf self.now.kept first bytes.now Overlap.New }
        requires reads { IfSome running.old (IsCheckOf self.now.kept.parts) }
        ensures growth { IfOk result (IsGrowth self.now.kept first bytes.now) }
        ensures reads { IfOk result (λ growth. IfSome running.new
            (IsCheckOf (merged self.now.kept.parts (parts_of growth)))) }
        ensures refused { OnErr result (result ≡ Err Refusal.Memory) }
    {
        let Ok(new) = self.kept.new_parts(alloc, first, bytes) else {
            return Err(Refusal::Memory);
        };
        let missing = self.kept.missing(self.size).saturating_sub(new.count());
        let standing = if missing > 0 {
            begin(alloc, running);
            Standing::Partial
        } else {
            match self.read_whole(alloc, running.take(), first, bytes, &new) {
                Ok(holdings) => Standing::Good(holdings),
                Err(KbartFault::Bad(why)) => Standing::Bad(why),
                // Parts in memory are within the limit of a file and are always read to their end, so only memory can
                // fail.
                Err(_) => return Err(Refusal::Memory),
            }
        };
        Ok(Growth {
            new,
            missing,
            standing,
        })
    }

    // Reads the file that the new bytes of a piece complete, from where the check that is running stopped.
    fn read_whole(
        &self,
        alloc: Global,
        running: Option<FileCheck>,
        first: u64,
        bytes: &[u8],
        new: &Segments,
    ) -> Result<Holdings, KbartFault>
        requires reads { IfSome running (IsCheckOf self.now.kept.parts) }
        requires agrees { AgreesIn self.now.kept.parts first bytes.now }
        requires adds { Adds self.now.kept.size self.now.kept.parts first bytes.now new.now.parts }
        requires whole { missing_below (byte_in (merged self.now.kept.parts new.now.parts)) self.now.kept.size ≡ 0 }
        ensures { IsJudged self.now.kept.size (merged self.now.kept.parts new.now.parts) result }
    {
        let check = self.kept.reader_with(new);
        if let Some(running) = running {
            if let Some(outcome) = running.finish(alloc, self.size, &self.kept, first, bytes) {
                return outcome;
            }
        }
        read_parts(alloc, check, self.kept.reader_with(new))
    }

    /// Commits the new bytes, and then adds them to the release. Allocates before the commit only.
    pub(crate) fn grow<K: Keep>(&mut self, keeper: &mut K, growth: Growth) -> Result<Reply, Refusal>
        requires growth { (first : ℕ) × (bytes : List ℕ) × IsGrowth self.old.kept first bytes growth }
        requires listed { K.clean keeper.old → ∥ K.listed keeper.old ∥₁ }
        requires allowed { K.clean keeper.old
            → IsAllowedWithin (capacity_with K.more) (change_of self.old.kept growth) (K.content keeper.old) }
        ensures reply { IfOk result (λ reply. reply ≡ reply_of growth.missing growth.standing) }
        ensures taken { OnOk result (self.new ≡ record {
          kept = record_after (parts_of growth) growth.standing self.old.kept;
          holdings = rows_of growth.standing;
        }) }
        ensures same { OnErr result (self.new ≡ self.old) }
        ensures listed { K.clean keeper.new → ∥ K.listed keeper.new ∥₁ }
        ensures committed { IsCommitted K.Keep (change_of self.old.kept growth) keeper.old keeper.new
            result }
    {
        let Growth {
            new,
            missing,
            standing,
        } = growth;
        let Ok(()) = self.kept.reserve(&new) else {
            return Err(Refusal::Memory);
        };
        commit(keeper, &standing.change(&self.name, new.parts()))?;
        self.kept.insert(new);
        let reply = standing.reply(missing);
        self.standing = standing;
        Ok(reply)
    }
}

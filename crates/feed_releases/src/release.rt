//! A recorded release in memory.
ghost use Rattle.std.specs.Prelude.{◌≡◌, ◌↔◌, ◌<◌, ◌≤◌, ◌+◌, length, None, IfSome, IsTrue, option_map};
ghost use Rattle.feed_model.specs.Reply.{max_file, missing_below};
ghost use Rattle.feed_model.specs.Content.{byte_in};
ghost use Rattle.feed_model.specs.Change.{new_record};
ghost use Rattle.feed_parts.specs.Shown.{shown_parts};
ghost use Rattle.feed_releases.specs.Leftovers.{HasRows};
ghost use Rattle.feed_releases.specs.NextRange.{IsNextOf};
ghost use Rattle.feed_releases.specs.FileCheck.{IsCheckOf, unread_of};
ghost use Rattle.feed_releases.specs.ReleaseValue.{IsKnown, IsOverlapOf};

use crate::file_check::FileCheck;
use crate::leftovers::Leftover;
use crate::standing::Standing;
use feed_kbart::{BadFile, Holdings};
use feed_model::State;
use feed_names::ReleaseName;
use feed_parts::Segments;
pub(crate) use reopen::{RecordCheck, RecordStep};
use std::alloc::Global;
use std::marker::Model;

mod growth;
mod reopen;

/// A recorded release in memory: the stored bytes of its file, and the status of the file.
#[derive(Drop)]
pub(crate) struct Release {
    name: ReleaseName,
    size: u64,
    kept: Segments,
    standing: Standing,
}

impl Model for Release {
    ghost use Rattle.feed_releases.specs.ReleaseValue.{ReleaseValue, IsRelease, record_with};
    ghost use Rattle.feed_releases.specs.Standing.{rows_of};

    ghost Value = { ReleaseValue };

    ghost view = { λ r. record {
      kept = record_with r.name r.size r.standing r.kept.parts;
      holdings = rows_of r.standing;
    } };

    ghost invariant = { λ r. IsRelease r.size r.kept.parts r.standing };
}

impl Release {
    /// Returns a release without stored bytes.
    pub(crate) fn new(alloc: Global, name: ReleaseName, size: u64) -> Release
        requires { size ≤ max_file }
        ensures { result ≡ record { kept = new_record name size; holdings = None } }
    {
        let standing = if size == 0 {
            Standing::Bad(BadFile::NoHeader)
        } else {
            Standing::Partial
        };
        Release {
            name,
            size,
            kept: Segments::new(alloc),
            standing,
        }
    }

    pub(crate) fn name(&self) -> &ReleaseName
        ensures { result.now ≡ self.now.kept.name }
    {
        &self.name
    }

    pub(crate) fn size(&self) -> u64
        ensures value { result ≡ self.now.kept.size }
        ensures limit { result ≤ max_file }
    {
        self.size
    }

    pub(crate) fn state(&self) -> State
        ensures { result ≡ self.now.kept.state }
    {
        self.standing.state()
    }

    /// Returns the number of bytes of the file that are not stored.
    pub(crate) fn missing(&self) -> u64
        ensures { result ≡ missing_below (byte_in self.now.kept.parts) self.now.kept.size }
    {
        self.kept.missing(self.size)
    }

    /// Returns why the file of a broken release is bad.
    pub(crate) fn reason(&self) -> Option<BadFile>
        ensures { result ≡ self.now.kept.reason }
    {
        self.standing.reason()
    }

    /// Returns the holdings of an active release.
    pub(crate) fn holdings(&self) -> Option<&Holdings>
        ensures value { option_map (λ holdings. holdings.now) result ≡ self.now.holdings }
        ensures known { IsKnown self.now.kept.state self.now.kept.size self.now.kept.parts self.now.holdings }
    {
        self.standing.holdings()
    }

    /// Returns the first and the last place of the first missing range of the file, at most `max` places.
    pub(crate) fn next_range(&self, max: u64) -> Option<(u64, u64)>
        ensures { IsNextOf (byte_in self.now.kept.parts) self.now.kept.size max result }
    {
        let gap = self.kept.next_gap(self.size)?;
        if max == 0 {
            return None;
        }
        Some((gap.first, gap.first + (gap.end - gap.first).min(max) - 1))
    }

    /// Has a check of the file read on in the stored bytes, at most a window. Returns `None` if memory runs out.
    pub(crate) fn read_on(&self, alloc: Global, running: FileCheck) -> Option<FileCheck>
        ensures reads { IfSome result (λ further. IsCheckOf self.now.kept.parts running
            → IsCheckOf self.now.kept.parts further) }
        ensures less { IfSome result (λ further. 0 < unread_of self.now.kept further
            → unread_of self.now.kept further < unread_of self.now.kept running) }
    {
        running.read_on(alloc, &self.kept)
    }

    /// Returns whether a check of the file can read on in the stored bytes.
    pub(crate) fn has_more(&self, running: &FileCheck) -> bool
        ensures { IsTrue result ↔ (0 < unread_of self.now.kept running.now) }
    {
        running.has_more(&self.kept)
    }

    /// Ends the use of the release. What is left of it can be freed in portions.
    pub(crate) fn retire(self) -> Leftover
        ensures parts { shown_parts result.parts.items ≡ self.kept.parts }
        ensures rows { HasRows self.holdings result.holdings }
    {
        let Release {
            name: _,
            size: _,
            kept,
            standing,
        } = self;
        Leftover {
            parts: kept.into_parts(),
            holdings: standing.retire(),
        }
    }

    /// Returns how a piece inside the file overlaps the stored bytes. Does not allocate.
    pub(crate) fn overlap(&self, first: u64, bytes: &[u8]) -> Overlap
        requires inside { first + length bytes.now ≤ self.now.kept.size }
        ensures { IsOverlapOf self.now.kept first bytes.now result }
    {
        if self.kept.conflicts(first, bytes) {
            Overlap::Conflict
        } else if self.kept.missing(self.size) == 0 || self.kept.covers(first, bytes) {
            Overlap::Kept
        } else {
            Overlap::New
        }
    }
}

/// The overlap of a piece with the stored bytes of its release.
#[derive(Clone, Copy)]
pub(crate) enum Overlap {
    /// The piece differs from a stored byte.
    Conflict,
    /// Every byte of the piece is stored.
    Kept,
    /// Some bytes are new, and the others are stored.
    New,
}

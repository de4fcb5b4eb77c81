//! Rebuilds a release from its stored record. The file of a complete release is read at once, or in steps.
ghost use Rattle.std.specs.Prelude.{◌≡◌, ◌≤◌, ◌+◌, ◌⊎◌, ℕ, List, IfOk, IfErr, IfSome, IfNone};
ghost use Rattle.feed_model.specs.Reply.{missing_below};
ghost use Rattle.feed_model.specs.Content.{Part, byte_in};
ghost use Rattle.feed_model.specs.Parts.{AreWithin};
ghost use Rattle.feed_model.specs.Sound.{IsSoundRecord};
ghost use Rattle.feed_keep.specs.Shown.{shown_record};
ghost use Rattle.feed_releases.specs.Judged.{IsJudged};
ghost use Rattle.feed_releases.specs.Reopening.{IsRecordCheck};
ghost use Rattle.feed_releases.specs.ReopeningSteps.{IsFileStep, IsRecordStep};
ghost use Rattle.feed_releases.specs.Standing.{IsStandingOf};

use crate::file_check::FileCheck;
use crate::release::Release;
use crate::standing::Standing;
use feed_kbart::{BadFile, Holdings, KbartFault, read_parts};
use feed_keep::Record;
use feed_limits::FILE_LIMIT;
use feed_model::{KeepFault, State};
use feed_names::ReleaseName;
use feed_parts::Segments;
use std::alloc::{AllocError, Global};
use std::marker::Model;

/// A stored record whose file is being checked.
#[derive(Drop)]
pub(crate) struct RecordCheck {
    name: ReleaseName,
    size: u64,
    state: State,
    reason: Option<BadFile>,
    kept: Segments,
    // The check of a complete file that is read in steps. Without one the last step does everything.
    running: Option<FileCheck>,
}

impl Model for RecordCheck {
    ghost use Rattle.std.specs.Prelude.{ℕ};
    ghost use Rattle.feed_releases.specs.Reopening.{CheckValue, IsRecordCheck, to_read};

    ghost Value = { CheckValue };

    ghost view = { λ c. record {
      kept = record {
        name = c.name;
        size = c.size;
        state = c.state;
        reason = c.reason;
        parts = c.kept.parts;
      };
      left = to_read c.size c.running;
    } };

    ghost invariant = { λ c. IsRecordCheck c.size c.kept.parts c.running };
}

/// A stored record after a step of its check.
#[derive(Drop)]
pub(crate) enum RecordStep {
    /// There is more to read.
    Pending(RecordCheck),
    /// The record is sound, and this is its release.
    Done(Release),
}

impl RecordCheck {
    /// Returns the check of a record, or `None` if its parts are not the parts of a file.
    pub(crate) fn of(alloc: Global, stored: Record, in_steps: bool) -> Option<RecordCheck>
        ensures some { IfSome result (λ check. (check.kept ≡ shown_record stored) × (check.left ≤ stored.size + 1)) }
        ensures none { IfNone result (¬ (IsSoundRecord (shown_record stored))) }
    {
        let Record {
            name,
            size,
            state,
            reason,
            parts,
        } = stored;
        let kept = Segments::of(parts)?;
        if size > FILE_LIMIT as u64 || !kept.are_within(size) {
            return None;
        }
        let running = if in_steps && kept.missing(size) == 0 {
            Some(FileCheck::new(alloc))
        } else {
            None
        };
        Some(RecordCheck {
            name,
            size,
            state,
            reason,
            kept,
            running,
        })
    }

    /// Reads a window of the file, or ends the check. The error is `Damaged` if no feed can have produced the record.
    pub(crate) fn step(self, alloc: Global) -> Result<RecordStep, KeepFault>
        ensures ok { IfOk result (IsRecordStep self) }
        ensures err { IfErr result (λ cause. (cause ≡ KeepFault.Memory)
            ⊎ ((cause ≡ KeepFault.Damaged) × ¬ (IsSoundRecord self.kept))) }
    {
        let RecordCheck {
            name,
            size,
            state,
            reason,
            kept,
            running,
        } = self;
        match read_file(alloc, size, &kept, running) {
            Ok(FileStep::Pending(running)) => Ok(RecordStep::Pending(RecordCheck {
                name,
                size,
                state,
                reason,
                kept,
                running: Some(running),
            })),
            Ok(FileStep::Done(standing)) => {
                if !standing.is_recorded_as(state, reason) {
                    return Err(KeepFault::Damaged);
                }
                Ok(RecordStep::Done(Release {
                    name,
                    size,
                    kept,
                    standing,
                }))
            }
            Err(_) => Err(KeepFault::Memory),
        }
    }
}

/// A file after a step of its check.
#[derive(Drop)]
pub(crate) enum FileStep {
    /// There is more to read.
    Pending(FileCheck),
    /// The file has this status.
    Done(Standing),
}

// Reads a window of a file that is read in steps, or returns the status of the file.
fn read_file(
    alloc: Global,
    size: u64,
    kept: &Segments,
    running: Option<FileCheck>,
) -> Result<FileStep, AllocError>
    requires { IsRecordCheck size kept.now.parts running }
    ensures { IfOk result (IsFileStep size kept.now.parts running) }
{
    let Some(running) = running else {
        return Ok(FileStep::Done(standing_of(alloc, size, kept)?));
    };
    if running.has_more(kept) {
        let Some(further) = running.read_on(alloc, kept) else {
            return Err(AllocError);
        };
        return Ok(FileStep::Pending(further));
    }
    Ok(FileStep::Done(standing_from(running.finish_whole(alloc))?))
}

// Returns the status of a file with these stored bytes. Reads a complete file.
fn standing_of(alloc: Global, size: u64, kept: &Segments) -> Result<Standing, AllocError>
    requires { AreWithin size kept.now.parts }
    ensures { IfOk result (λ standing.
        IsStandingOf size kept.now.parts (missing_below (byte_in kept.now.parts) size) standing) }
{
    if kept.missing(size) > 0 {
        return Ok(Standing::Partial);
    }
    standing_from(read_parts(alloc, kept.reader(), kept.reader()))
}

// Returns the status of a complete file that reads as this.
fn standing_from(outcome: Result<Holdings, KbartFault>) -> Result<Standing, AllocError>
    ensures { IfOk result (λ standing. (size : ℕ) (parts : List Part) → IsJudged size parts outcome
        → IsStandingOf size parts 0 standing) }
{
    match outcome {
        Ok(holdings) => Ok(Standing::Good(holdings)),
        Err(KbartFault::Bad(why)) => Ok(Standing::Bad(why)),
        // Parts in memory are within the limit of a file and are always read to their end, so only memory can fail.
        Err(_) => Err(AllocError),
    }
}

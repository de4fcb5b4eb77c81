//! Rebuilds the releases of a feed from the records of its keeper, in steps.
ghost use Rattle.std.specs.Prelude.{◌≡◌, ◌⊎◌, ◌++◌, ◌≤◌, length, All, IfOk, IfErr};
ghost use Rattle.std.specs.List.{IsDistinct};
ghost use Rattle.std.specs.Vec.Iter.{into_iter_items};
ghost use Rattle.feed_names.specs.ReleaseName.{name_eq};
ghost use Rattle.feed_model.specs.Content.{names, within};
ghost use Rattle.feed_model.specs.Sound.{IsSound, IsSoundRecord};
ghost use Rattle.feed_keep.specs.Shown.{shown};
ghost use Rattle.feed_releases.specs.Reopening.{records_in};
ghost use Rattle.feed_releases.specs.ReopeningSteps.{IsNext, IsReopeningStep};

use crate::release::{RecordCheck, RecordStep, Release};
use feed_keep::{Record, are_current};
use feed_model::KeepFault;
use std::alloc::Global;
use std::marker::Model;
use std::vec::IntoIter;

/// The records of a keeper while releases are made of them.
#[derive(Drop)]
pub(crate) struct Reopening {
    // There is room for all.
    releases: Vec<Release>,
    current: Option<RecordCheck>,
    rest: IntoIter<Record, Global>,
    // The most records that there may be.
    most: usize,
}

impl Model for Reopening {
    ghost use Rattle.std.specs.Prelude.{vec_capacity};
    ghost use Rattle.std.specs.Vec.Iter.{into_iter_items};
    ghost use Rattle.feed_releases.specs.Reopening.{ReopeningValue, IsReopening, content_in, left_in};

    ghost Value = { ReopeningValue };

    ghost view = { λ r. record {
      content = content_in r.releases.items r.current (into_iter_items r.rest);
      most = r.most;
      left = left_in r.current (into_iter_items r.rest);
    } };

    ghost invariant = { λ r. IsReopening r.most r.releases.items (vec_capacity r.releases)
        (content_in r.releases.items r.current (into_iter_items r.rest)) };
}

/// The records of a keeper after a step.
#[derive(Drop)]
pub(crate) enum ReopeningStep {
    /// There is more to check.
    Pending(Reopening),
    /// All are releases now, in their order.
    Done(Vec<Release>),
}

impl Reopening {
    /// Returns the records before any check of a file. The error is `Damaged` if there are more than `most`, or if one
    /// has a later active one in its package.
    pub(crate) fn of(
        alloc: Global,
        records: Vec<Record>,
        most: usize,
    ) -> Result<Reopening, KeepFault>
        requires distinct { IsDistinct name_eq (names (shown records.items)) }
        ensures content { IfOk result (λ reopening. reopening.content ≡ shown records.items) }
        ensures most { IfOk result (λ reopening. reopening.most ≡ most) }
        ensures err { IfErr result (λ cause. (cause ≡ KeepFault.Memory)
            ⊎ ((cause ≡ KeepFault.Damaged) × ¬ (IsSound (within most (shown records.items))))) }
    {
        if records.len() > most {
            return Err(KeepFault::Damaged);
        }
        match are_current(alloc, &records) {
            Ok(true) => {}
            Ok(false) => return Err(KeepFault::Damaged),
            Err(_) => return Err(KeepFault::Memory),
        }
        let Ok(releases) = Vec::with_capacity(alloc, records.len()) else {
            return Err(KeepFault::Memory);
        };
        Ok(Reopening {
            releases,
            current: None,
            rest: records.into_iter(),
            most,
        })
    }

    /// Returns how many records there may be.
    pub(crate) fn most(&self) -> usize
        ensures { result ≡ self.now.most }
    {
        self.most
    }

    /// Checks a window of a file, or a record whose file is read at once.
    pub(crate) fn step(self, alloc: Global, in_steps: bool) -> Result<ReopeningStep, KeepFault>
        ensures ok { IfOk result (IsReopeningStep self) }
        ensures err { IfErr result (λ cause. (cause ≡ KeepFault.Memory)
            ⊎ ((cause ≡ KeepFault.Damaged) × ¬ (IsSound (within self.most self.content)))) }
    {
        let Reopening {
            mut releases,
            current,
            mut rest,
            most,
        } = self;
        let check = match next_check(alloc, current, &mut rest, in_steps) {
            Ok(Some(check)) => check,
            Ok(None) => return Ok(ReopeningStep::Done(releases)),
            Err(cause) => return Err(cause),
        };
        match check.step(alloc) {
            Ok(RecordStep::Pending(check)) => Ok(ReopeningStep::Pending(Reopening {
                releases,
                current: Some(check),
                rest,
                most,
            })),
            Ok(RecordStep::Done(release)) => {
                releases.push_reserved(release);
                Ok(ReopeningStep::Pending(Reopening {
                    releases,
                    current: None,
                    rest,
                    most,
                }))
            }
            Err(cause) => Err(cause),
        }
    }
}

// Returns the check of the current record, or that of the next one.
fn next_check(
    alloc: Global,
    current: Option<RecordCheck>,
    rest: &mut IntoIter<Record, Global>,
    in_steps: bool,
) -> Result<Option<RecordCheck>, KeepFault>
    ensures ok { IfOk result (λ next. IsNext current (into_iter_items rest.old) next (into_iter_items rest.new)) }
    ensures err { IfErr result (λ cause. (cause ≡ KeepFault.Damaged)
        × ¬ (All IsSoundRecord (records_in current ++ shown (into_iter_items rest.old)))) }
{
    if current.is_some() {
        return Ok(current);
    }
    let Some(record) = rest.next() else {
        return Ok(None);
    };
    match RecordCheck::of(alloc, record, in_steps) {
        Some(check) => Ok(Some(check)),
        None => Err(KeepFault::Damaged),
    }
}

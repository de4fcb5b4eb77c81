//! The sorted runs of an index that is being built. Runs of about equal size are merged, in portions.
ghost use Rattle.std.specs.Prelude.{◌≡◌, ◌<◌, ◌+◌, ℕ, Some, None, IfOk, IfSome, OnOk, length};
ghost use Rattle.feed_kbart.specs.Runs.{HasEntries, merge_weight, run_weight, runs_weight, weight_of};
ghost use Rattle.feed_kbart.specs.declared.entry.Entry.{Entry};

use crate::index::Index;
use crate::merge::Merge;
use crate::run::Run;
use std::alloc::{AllocError, Global};

/// Sorted runs. Two of them may be in a merge.
#[derive(Drop)]
pub(crate) struct Runs {
    // The largest comes first.
    waiting: Vec<Run>,
    merge: Option<Merge>,
}

// Adds a run behind those that are larger.
fn add_run(waiting: &mut Vec<Run>, run: Run) -> Result<(), AllocError>
    ensures weight { OnOk result ((weight : Entry → ℕ)
        → runs_weight weight waiting.new.items ≡ runs_weight weight waiting.old.items + run_weight weight run) }
    ensures longer { OnOk result (length waiting.new.items ≡ length waiting.old.items + 1) }
{
    let size = run.len();
    let place = waiting.partition_point(|other| other.len() >= size);
    waiting.insert(place, run)?;
    Ok(())
}

// Takes out the run at a place and the next one.
fn take_two(waiting: &mut Vec<Run>, place: usize) -> (Run, Run)
    requires { place + 1 < length waiting.old.items }
    ensures weight { (weight : Entry → ℕ) → runs_weight weight waiting.new.items
        + (run_weight weight result.0 + run_weight weight result.1) ≡ runs_weight weight waiting.old.items }
    ensures shorter { length waiting.new.items + 2 ≡ length waiting.old.items }
{
    let left = waiting.remove(place);
    let right = waiting.remove(place);
    (left, right)
}

// Returns the place of a run that is at most twice as large as the next one: of several, that of the smallest.
fn place_of_equals(waiting: &[Run]) -> Option<usize>
    ensures { IfSome result (λ place. place + 1 < length waiting.now) }
{
    let mut place = waiting.len().saturating_sub(1);
    while place > 0 {
        place -= 1;
        if waiting[place].len() / 2 <= waiting[place + 1].len() {
            return Some(place);
        }
    }
    None
}

// Begins to merge two runs of about equal size, if there are two.
fn begin_merge(alloc: Global, waiting: &mut Vec<Run>) -> Result<Option<Merge>, AllocError>
    ensures { IfOk result (λ merge. (weight : Entry → ℕ)
        → runs_weight weight waiting.new.items + merge_weight weight merge ≡ runs_weight weight waiting.old.items) }
{
    match place_of_equals(waiting) {
        Some(place) => {
            let (left, right) = take_two(waiting, place);
            Ok(Some(Merge::new(alloc, left, right)?))
        }
        None => Ok(None),
    }
}

impl Runs {
    pub(crate) fn new(alloc: Global) -> Runs
        ensures { (weight : Entry → ℕ) → weight_of weight result ≡ 0 }
    {
        Runs {
            waiting: Vec::new(alloc),
            merge: None,
        }
    }

    /// Adds a run.
    pub(crate) fn add(&mut self, run: Run) -> Result<(), AllocError>
        ensures { OnOk result ((weight : Entry → ℕ)
            → weight_of weight self.new ≡ weight_of weight self.old + run_weight weight run) }
    {
        add_run(&mut self.waiting, run)
    }

    /// Merges at most so many entries, if there are runs of about equal size.
    pub(crate) fn merge_some(&mut self, alloc: Global, count: usize) -> Result<(), AllocError>
        ensures { OnOk result ((weight : Entry → ℕ) → weight_of weight self.new ≡ weight_of weight self.old) }
    {
        match self.merge.take() {
            Some(merge) => self.merge_with(merge.step(count)?),
            None => {
                self.merge = begin_merge(alloc, &mut self.waiting)?;
                Ok(())
            }
        }
    }

    // Goes on with a merge, or adds its run if it is done.
    fn merge_with(&mut self, merge: Merge) -> Result<(), AllocError>
        requires { self.old.merge ≡ None }
        ensures { OnOk result ((weight : Entry → ℕ)
            → weight_of weight self.new ≡ weight_of weight self.old + merge_weight weight (Some merge)) }
    {
        if merge.left_over() == 0 {
            return add_run(&mut self.waiting, merge.finish()?);
        }
        self.merge = Some(merge);
        Ok(())
    }

    /// Merges all runs into an index. The last two are merged straight into its columns.
    pub(crate) fn finish(self, alloc: Global) -> Result<Index, AllocError>
        ensures { IfOk result (HasEntries (λ weight. weight_of weight self)) }
    {
        let Runs { mut waiting, merge } = self;
        if let Some(merge) = merge {
            add_run(&mut waiting, merge.finish()?)?;
        }
        while waiting.len() > 2 {
            let place = waiting.len() - 2;
            let (left, right) = take_two(&mut waiting, place);
            add_run(&mut waiting, Merge::new(alloc, left, right)?.finish()?)?;
        }
        let none = Run::of(Vec::new(alloc));
        match waiting.as_slice() {
            [left, right, ..] => Index::of(alloc, left, right),
            [run] => Index::of(alloc, run, &none),
            [] => Index::of(alloc, &none, &none),
        }
    }
}

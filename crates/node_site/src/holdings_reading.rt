//! The reading of a holdings file, in steps that are each bounded.
ghost use Rattle.std.specs.Prelude.{◌≡◌, ◌≤◌, ◌<◌, ◌+◌, ◌*◌, ◌∷◌, IfErr, IfOk, length};
ghost use Rattle.node_site.specs.HoldingsFaults.{IsHoldingsFault};
ghost use Rattle.node_site.specs.HoldingsIndex.{IsFirstFault, IsHeaded, places_behind};
ghost use Rattle.node_site.specs.HoldingsReadings.{AreCompared, AreMerging, AreRows, AreRuns, IsPhase, IsRunOf};
ghost use Rattle.node_site.specs.HoldingsReadings.{IsNext, steps_left};

use crate::entry::{Entry, sort};
use crate::holdings_clash::clash_in;
use crate::holdings_fault::HoldingsFault;
use crate::holdings_file::HoldingsFile;
use crate::holdings_rows::{add_rows, check_text};
use crate::merge::Merge;
use crate::on_listed::put_entries;
use crate::places::Places;
use std::alloc::Global;
use std::marker::Model;

// How many bytes of the text a step reads.
const READ_LEN: usize = 16_384;

// How many entries it merges.
const MERGE_LEN: usize = 16_384;

// How many entries it compares with those before them.
const COMPARE_LEN: usize = 4_096;

/// How far the reading of a holdings file is.
#[derive(Drop)]
pub(crate) enum Phase {
    // The rows before a place are in sorted runs.
    Rows(usize, Vec<Vec<Entry>>),
    // All rows are in sorted runs, and two of them are being merged.
    Merging(Merge, Vec<Vec<Entry>>),
    // All rows are in order, as many as the number says do not contradict each other, and the packages of which these
    // switch a title on have places.
    Comparing(Vec<Entry>, usize, Places),
    // The file is read.
    Done(Vec<Entry>, Places),
}

/// The reading of a holdings file whose text has its header.
#[derive(Drop)]
pub struct HoldingsReading {
    text: Vec<u8>,
    phase: Phase,
}

impl Model for HoldingsReading {
    ghost use Rattle.node_site.specs.HoldingsReadings.{IsReading, steps_left};
    ghost use Rattle.node_site.specs.ReadingValue.{ReadingValue};

    ghost Value = { ReadingValue };

    ghost view = { λ r. record { text = r.text.items; left = steps_left r.text.items r.phase } };

    ghost invariant = { λ r. IsReading r.text.items r.phase };
}

/// The result of a step of a reading.
#[derive(Drop)]
pub enum ReadingStep {
    /// More of the file is to be read.
    More(HoldingsReading),
    /// The file is read.
    Done(HoldingsFile),
}

// Reads the rows of a portion of the text, and sorts them as a run.
fn read_run(alloc: Global, text: &[u8], from: usize, to: usize) -> Result<Vec<Entry>, HoldingsFault>
    requires headed { IsHeaded text.now }
    requires forward { from ≤ to }
    requires within { to ≤ length text.now }
    ensures run { IfOk result (IsRunOf text.now from to) }
    ensures refused { IfErr result (IsFirstFault text.now (places_behind text.now from)) }
{
    let mut run = Vec::new(alloc);
    if let Err(fault) = add_rows(text, from, to, &mut run) {
        return Err(fault);
    }
    sort(text, &mut run);
    Ok(run)
}

// Takes out the first two of several runs.
fn take_two(runs: &mut Vec<Vec<Entry>>) -> (Vec<Entry>, Vec<Entry>)
    requires { 1 < length runs.old.items }
    ensures { runs.old.items ≡ result.0 ∷ result.1 ∷ runs.new.items }
{
    let left = runs.remove(0);
    let right = runs.remove(0);
    (left, right)
}

// Begins to merge the first two runs, or to compare the entries of the only one.
fn merge_or_compare(
    alloc: Global,
    text: &[u8],
    mut runs: Vec<Vec<Entry>>,
) -> Result<Phase, HoldingsFault>
    requires headed { IsHeaded text.now }
    requires runs { AreRuns text.now runs.items }
    ensures is { IfOk result (IsPhase text.now) }
    ensures less { IfOk result (λ next. steps_left text.now next < 33554432 * length runs.items + 2) }
    ensures refused { IfErr result (IsHoldingsFault text.now) }
{
    if runs.len() < 2 {
        return match runs.pop() {
            Some(entries) => Ok(Phase::Comparing(entries, 0, Places::new(alloc))),
            None => Ok(Phase::Comparing(Vec::new(alloc), 0, Places::new(alloc))),
        };
    }
    let (left, right) = take_two(&mut runs);
    match Merge::new(alloc, left, right) {
        Ok(merge) => Ok(Phase::Merging(merge, runs)),
        Err(_) => Err(HoldingsFault::Memory),
    }
}

// Reads one more run, or begins to merge all.
fn read_some(
    alloc: Global,
    text: &[u8],
    place: usize,
    mut runs: Vec<Vec<Entry>>,
) -> Result<Phase, HoldingsFault>
    requires headed { IsHeaded text.now }
    requires rows { AreRows text.now place runs.items }
    ensures is { IfOk result (IsPhase text.now) }
    ensures less { IfOk result (IsNext text.now (Phase.Rows place runs)) }
    ensures refused { IfErr result (IsHoldingsFault text.now) }
{
    if place == text.len() {
        return merge_or_compare(alloc, text, runs);
    }
    let to = text.len().min(place.saturating_add(READ_LEN));
    let run = match read_run(alloc, text, place, to) {
        Ok(run) => run,
        Err(fault) => return Err(fault),
    };
    match runs.push(run) {
        Ok(()) => Ok(Phase::Rows(to, runs)),
        Err(_) => Err(HoldingsFault::Memory),
    }
}

// Merges some more entries of two runs, or begins with the next two.
fn merge_some(
    alloc: Global,
    text: &[u8],
    merge: Merge,
    mut runs: Vec<Vec<Entry>>,
) -> Result<Phase, HoldingsFault>
    requires headed { IsHeaded text.now }
    requires merging { AreMerging text.now merge runs.items }
    ensures is { IfOk result (IsPhase text.now) }
    ensures less { IfOk result (IsNext text.now (Phase.Merging merge runs)) }
    ensures refused { IfErr result (IsHoldingsFault text.now) }
{
    if merge.left_over() > 0 {
        return match merge.step(text, MERGE_LEN) {
            Ok(merge) => Ok(Phase::Merging(merge, runs)),
            Err(_) => Err(HoldingsFault::Memory),
        };
    }
    match runs.push(merge.run()) {
        Ok(()) => merge_or_compare(alloc, text, runs),
        Err(_) => Err(HoldingsFault::Memory),
    }
}

// Looks for a contradiction among some more entries, and for the packages of which they switch a title on.
fn compare_some(
    alloc: Global,
    text: &[u8],
    entries: Vec<Entry>,
    index: usize,
    mut on: Places,
) -> Result<Phase, HoldingsFault>
    requires headed { IsHeaded text.now }
    requires compared { AreCompared text.now entries.items index on }
    ensures is { IfOk result (IsPhase text.now) }
    ensures less { IfOk result (IsNext text.now (Phase.Comparing entries index on)) }
    ensures refused { IfErr result (IsHoldingsFault text.now) }
{
    if index == entries.len() {
        return Ok(Phase::Done(entries, on));
    }
    let to = entries.len().min(index.saturating_add(COMPARE_LEN));
    if let Some(fault) = clash_in(text, &entries, index, to) {
        return Err(HoldingsFault::Line(fault));
    }
    match put_entries(alloc, text, &entries, index, to, &mut on) {
        Ok(()) => Ok(Phase::Comparing(entries, to, on)),
        Err(_) => Err(HoldingsFault::Memory),
    }
}

// Reads some more, merges some more, or compares some more.
fn next_phase(alloc: Global, text: &[u8], phase: Phase) -> Result<Phase, HoldingsFault>
    requires headed { IsHeaded text.now }
    requires phase { IsPhase text.now phase }
    ensures is { IfOk result (IsPhase text.now) }
    ensures less { IfOk result (IsNext text.now phase) }
    ensures refused { IfErr result (IsHoldingsFault text.now) }
{
    match phase {
        Phase::Rows(place, runs) => read_some(alloc, text, place, runs),
        Phase::Merging(merge, runs) => merge_some(alloc, text, merge, runs),
        Phase::Comparing(entries, index, on) => compare_some(alloc, text, entries, index, on),
        Phase::Done(entries, on) => Ok(Phase::Done(entries, on)),
    }
}

impl HoldingsReading {
    ghost use Rattle.node_site.specs.ReadingSteps.{IsStep};

    /// Begins to read a holdings file: checks its length, that it is UTF-8, and its header.
    ///
    /// # Errors
    ///
    /// The length, an invalid byte or the header.
    pub fn begin(alloc: Global, bytes: Vec<u8>) -> Result<HoldingsReading, HoldingsFault>
        ensures text { IfOk result (λ reading. reading.text ≡ bytes.items) }
        ensures refused { IfErr result (IsHoldingsFault bytes.items) }
    {
        if let Err(fault) = check_text(&bytes) {
            return Err(fault);
        }
        Ok(HoldingsReading {
            text: bytes,
            phase: Phase::Rows(0, Vec::new(alloc)),
        })
    }

    /// Returns the bytes of the file.
    pub fn text(&self) -> &[u8]
        ensures { result.now ≡ self.now.text }
    {
        &self.text
    }

    /// Reads some more of the file: a bounded number of its bytes, or of its rows.
    ///
    /// # Errors
    ///
    /// A line is not accepted or contradicts another one, or an allocation fails.
    pub fn step(self, alloc: Global) -> Result<ReadingStep, HoldingsFault>
        ensures step { IfOk result (IsStep self) }
        ensures refused { IfErr result (IsHoldingsFault self.text) }
    {
        let HoldingsReading { text, phase } = self;
        let next = match next_phase(alloc, &text, phase) {
            Ok(next) => next,
            Err(fault) => return Err(fault),
        };
        match next {
            Phase::Done(entries, on) => Ok(ReadingStep::Done(HoldingsFile { text, entries, on })),
            phase => Ok(ReadingStep::More(HoldingsReading { text, phase })),
        }
    }
}

//! The histograms of the microseconds that requests, turns and commits take.
ghost use Rattle.std.specs.Prelude.{◌≡◌, ◌<◌, ℕ, IfOk, List, [], ◌∷◌};
ghost use Rattle.std.specs.Prelude.{IsTrue, length, nat_le, slice_index};
ghost use Rattle.node_monitoring.specs.Histograms.{HasObserved, KeepsOthers, one_more, times_of};

use std::alloc::{AllocError, Global};
use std::marker::Model;

/// The greatest time of each bucket, in microseconds.
pub const BOUNDS: [u64; 12] = [
    250, 500, 1_000, 2_500, 5_000, 10_000, 25_000, 100_000, 250_000, 1_000_000, 5_000_000,
    30_000_000,
];

/// Times: how many are within each bound, how many there are, and their sum.
#[derive(Drop)]
pub(crate) struct Histogram {
    buckets: Vec<u64>,
    count: u64,
    sum: u64,
}

impl Model for Histogram {
    ghost use Rattle.node_monitoring.specs.Histograms.{HistogramValue};

    ghost Value = { HistogramValue };

    ghost view = { λ h. record { buckets = h.buckets.items; count = h.count; sum = h.sum } };
}

// Returns the count, with one more if a time is within a bound.
fn one_more(count: u64, bound: u64, micros: u64) -> u64
    ensures { result ≡ one_more count bound micros }
{
    if micros <= bound {
        count.saturating_add(1)
    } else {
        count
    }
}

// Counts a time in each bucket whose bound it is within.
fn count_in(buckets: &mut [u64], micros: u64)
    ensures { (k : ℕ) → k < length buckets.old → k < 12
        → slice_index buckets.new k ≡ one_more (slice_index buckets.old k) (slice_index BOUNDS k) micros }
{
    for place in 0..buckets.len().min(12) {
        buckets[place] = one_more(buckets[place], BOUNDS[place], micros);
    }
}

impl Histogram {
    /// Returns a histogram of no times.
    pub(crate) fn new(alloc: Global) -> Result<Histogram, AllocError>
        ensures { IfOk result (λ histogram. HasObserved histogram []) }
    {
        Ok(Histogram {
            buckets: Vec::from_elem(alloc, 0, 12)?,
            count: 0,
            sum: 0,
        })
    }

    /// Observes a time.
    pub(crate) fn observe(&mut self, micros: u64)
        ensures { (observed : List ℕ) → HasObserved self.old observed
            → HasObserved self.new (micros ∷ observed) }
    {
        count_in(&mut self.buckets, micros);
        self.count = self.count.saturating_add(1);
        self.sum = self.sum.saturating_add(micros);
    }

    /// Returns how many times are within the bound at a place.
    pub(crate) fn bucket(&self, place: usize) -> u64
        ensures { result ≡ slice_index self.now.buckets place }
    {
        match self.buckets.get(place) {
            Some(count) => *count,
            None => 0,
        }
    }

    /// Returns how many times there are.
    pub(crate) fn count(&self) -> u64
        ensures { result ≡ self.now.count }
    {
        self.count
    }

    /// Returns the sum of the times in microseconds.
    pub(crate) fn sum(&self) -> u64
        ensures { result ≡ self.now.sum }
    {
        self.sum
    }
}

/// A kind of time that a node measures.
#[derive(Clone, Copy, Debug, PartialEq, Eq)]
pub enum Timing {
    /// From the last byte of the head of a request to the last byte of its response.
    Request,
    /// A turn of the node, from the end of its wait for the sockets.
    Turn,
    /// A step in which the node stores what it fetches.
    Commit,
}

/// The number of kinds of times.
const TIMING_COUNT: usize = Timing::Commit as usize + 1;

/// A histogram for each kind of time, in the order of the kinds.
#[derive(Drop)]
pub(crate) struct Histograms {
    all: [Histogram; TIMING_COUNT],
}

impl Model for Histograms {
    ghost use Rattle.std.specs.Prelude.{◌≡◌, List, length};
    ghost use Rattle.node_monitoring.specs.declared.histogram.TheConstants.{TIMING_COUNT};
    ghost use Rattle.node_monitoring.specs.Histograms.{HistogramValue};

    ghost Value = { List HistogramValue };

    ghost view = { λ h. h.all };

    ghost invariant = { λ h. length h.all ≡ TIMING_COUNT };
}

impl Histograms {
    /// Returns histograms of no times.
    pub(crate) fn new(alloc: Global) -> Result<Histograms, AllocError>
        ensures { (timing : Timing) → IfOk result (λ histograms. HasObserved (times_of histograms timing) []) }
    {
        Ok(Histograms {
            all: [
                Histogram::new(alloc)?,
                Histogram::new(alloc)?,
                Histogram::new(alloc)?,
            ],
        })
    }

    /// Observes a time.
    pub(crate) fn observe(&mut self, timing: Timing, micros: u64)
        ensures observed { (observed : List ℕ) → HasObserved (times_of self.old timing) observed
            → HasObserved (times_of self.new timing) (micros ∷ observed) }
        ensures others { KeepsOthers timing self.old self.new }
    {
        self.all[timing as usize].observe(micros);
    }

    /// Returns the histogram of a kind of time.
    pub(crate) fn of(&self, timing: Timing) -> &Histogram
        ensures { result.now ≡ times_of self.now timing }
    {
        &self.all[timing as usize]
    }
}

//! The counts of a node.
ghost use Rattle.std.specs.Prelude.{◌≡◌, ◌∷◌, IfOk, List, []};
ghost use Rattle.node_monitoring.specs.Counts.{Added, HasCounted};
ghost use Rattle.node_monitoring.specs.Histograms.{HasObserved, times_of};
ghost use Rattle.node_monitoring.specs.MetricsTexts.{KeepsSites};
ghost use Rattle.node_monitoring.specs.declared.counter.Counter.TheVariants as counter;
ghost use Rattle.node_monitoring.specs.declared.histogram.Timing.{Timing};
ghost use Rattle.node_state.specs.FetchOutcomes.{fetch_counter};
ghost use Rattle.node_state.specs.NodeCounts.{cause_counter, many_of, one_of};

use crate::fetch_outcome::FetchOutcome;
use node_monitoring::{Counter, Metrics};
use node_table::CloseCause;
use std::alloc::{AllocError, Global};

/// The counts of a node: the metrics, and the connections that are open.
#[derive(Drop)]
pub struct NodeCounts {
    pub metrics: Metrics,
    pub open: u64,
}

fn cause_counter(cause: CloseCause) -> Counter
    ensures { result ≡ cause_counter cause }
{
    match cause {
        CloseCause::Complete => Counter::Complete,
        CloseCause::PeerClosed => Counter::PeerClosed,
        CloseCause::TimedOut => Counter::TimedOut,
        CloseCause::Evicted => Counter::Evicted,
        CloseCause::Unread => Counter::Unread,
        CloseCause::Streamed => Counter::Streamed,
    }
}

impl NodeCounts {
    /// Returns counts of nothing.
    pub fn new(alloc: Global) -> Result<NodeCounts, AllocError>
        ensures counters { IfOk result (λ counts. HasCounted counts.metrics.counters []) }
        ensures requests { IfOk result (λ counts. HasCounted counts.metrics.requests []) }
        ensures times { (timing : Timing) → IfOk result (λ counts.
            HasObserved (times_of counts.metrics.times timing) []) }
    {
        Ok(NodeCounts {
            metrics: Metrics::new(alloc)?,
            open: 0,
        })
    }

    /// Counts a connection that is accepted.
    pub fn accept(&mut self)
        ensures counted { (history : List Added) → HasCounted self.old.metrics.counters history
            → HasCounted self.new.metrics.counters (one_of counter.Opened ∷ history) }
        ensures requests { self.new.metrics.requests ≡ self.old.metrics.requests }
        ensures sites { KeepsSites self.old.metrics self.new.metrics }
        ensures times { self.new.metrics.times ≡ self.old.metrics.times }
    {
        self.metrics.add(Counter::Opened, 1);
        self.open = self.open.saturating_add(1);
    }

    /// Counts a connection that is closed, under its cause.
    pub fn close(&mut self, cause: CloseCause)
        ensures counted { (history : List Added) → HasCounted self.old.metrics.counters history
            → HasCounted self.new.metrics.counters (one_of (cause_counter cause) ∷ history) }
        ensures requests { self.new.metrics.requests ≡ self.old.metrics.requests }
        ensures sites { KeepsSites self.old.metrics self.new.metrics }
        ensures times { self.new.metrics.times ≡ self.old.metrics.times }
    {
        self.metrics.add(cause_counter(cause), 1);
        self.open = self.open.saturating_sub(1);
    }

    /// Counts a fetch with this outcome.
    pub fn end_fetch(&mut self, outcome: FetchOutcome)
        ensures counted { (history : List Added) → HasCounted self.old.metrics.counters history
            → HasCounted self.new.metrics.counters (one_of (fetch_counter outcome) ∷ history) }
        ensures requests { self.new.metrics.requests ≡ self.old.metrics.requests }
        ensures sites { KeepsSites self.old.metrics self.new.metrics }
        ensures times { self.new.metrics.times ≡ self.old.metrics.times }
    {
        self.metrics.add(outcome.counter(), 1);
    }

    /// Counts lines of the log that were not written.
    pub fn drop_lines(&mut self, lines: u64)
        ensures counted { (history : List Added) → HasCounted self.old.metrics.counters history
            → HasCounted self.new.metrics.counters (many_of counter.DroppedLine lines ∷ history) }
        ensures requests { self.new.metrics.requests ≡ self.old.metrics.requests }
        ensures sites { KeepsSites self.old.metrics self.new.metrics }
        ensures times { self.new.metrics.times ≡ self.old.metrics.times }
    {
        self.metrics.add(Counter::DroppedLine, lines);
    }
}

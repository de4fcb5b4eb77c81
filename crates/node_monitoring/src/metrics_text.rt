//! Writes the metrics of a node, in the Prometheus exposition format.
ghost use Rattle.std.specs.Prelude.{◌≡◌, ◌++◌, OnOk};
ghost use Rattle.node_monitoring.specs.Families.{metrics_text};

use crate::metrics::Metrics;
use crate::metrics_table::FAMILIES;
use crate::metrics_values::NodeSources;
use feed_metrics::put_families;
use std::alloc::AllocError;

/// The state of a node, beside its counters.
#[derive(Clone, Copy)]
pub struct Gauges<'a> {
    /// The version of the program.
    pub version: &'a [u8],
    /// The connections that are open.
    pub open: u64,
    /// The bytes that are allocated for responses to be sent.
    pub held_bytes: u64,
    pub releases: &'a [ReleaseTime<'a>],
    /// Whether each release has a series even if more than 256 are active.
    pub has_all_series: bool,
    /// The seconds since the node last switched to a release, if it has.
    pub since_switch: Option<u64>,
}

/// An active release: its package, and the first second of its day since 1970-01-01, in UTC.
#[derive(Clone, Copy)]
pub struct ReleaseTime<'a> {
    pub package: &'a [u8],
    pub seconds: u64,
}

/// Writes the metrics of a node.
///
/// # Errors
///
/// Running out of memory. A part of the text may be written then.
#[tactic(auto, unfolding(crate::specs::Families::metrics_text))]
pub fn put_metrics<'a>(
    out: &mut Vec<u8>,
    metrics: &'a Metrics,
    gauges: &'a Gauges<'a>,
) -> Result<(), AllocError>
    ensures { OnOk result (out.new.items ≡ out.old.items ++ metrics_text metrics.now gauges.now) }
{
    put_families(out, &NodeSources { metrics, gauges }, FAMILIES)
}

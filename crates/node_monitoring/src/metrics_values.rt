//! The values of the rows of the metrics, by their sources.
ghost use Rattle.std.specs.Prelude.{◌≡◌, map};
ghost use Rattle.feed_metrics.specs.Rows.{name_at};
ghost use Rattle.node_monitoring.specs.Families.{bound_at, has_series, package_at, seconds_at};

use crate::histogram::BOUNDS;
use crate::metrics::Metrics;
use crate::metrics_table::{LabelSource, SampleSource};
use crate::metrics_text::Gauges;
use crate::request_kind::{CLASS_COUNT, CLASSES, REQUEST_COUNT, TARGETS};
use feed_bytes::put_number;
use feed_metrics::{Sources, put_label, put_seconds};
use std::alloc::AllocError;

// The most active releases whose series are never left out. Past them, each scrape would bring thousands of lines.
const SERIES_LIMIT: usize = 256;

fn name_in(names: &'static [&'static str], place: usize) -> &'static [u8]
    ensures { result.now ≡ name_at (map (λ name. name.now) names.now) place }
{
    match names.get(place) {
        Some(name) => name.as_bytes(),
        None => b"",
    }
}

// Returns the bound of a bucket in microseconds.
fn bound_at(place: usize) -> u64
    ensures { result ≡ bound_at place }
{
    match BOUNDS.get(place) {
        Some(bound) => *bound,
        None => 0,
    }
}

fn package_at<'a>(gauges: &Gauges<'a>, place: usize) -> &'a [u8]
    ensures { result.now ≡ package_at gauges.now place }
{
    match gauges.releases.get(place) {
        Some(release) => release.package,
        None => b"",
    }
}

fn seconds_at(gauges: &Gauges<'_>, place: usize) -> u64
    ensures { result ≡ seconds_at gauges.now place }
{
    match gauges.releases.get(place) {
        Some(release) => release.seconds,
        None => 0,
    }
}

// Returns whether each active release has a series.
fn has_series(gauges: &Gauges<'_>) -> bool
    ensures { result ≡ has_series gauges.now }
{
    gauges.has_all_series || gauges.releases.len() <= SERIES_LIMIT
}

/// The counters and the state of a node, from which the metrics have their values.
#[derive(Clone, Copy)]
pub(crate) struct NodeSources<'a> {
    pub(crate) metrics: &'a Metrics,
    pub(crate) gauges: &'a Gauges<'a>,
}

impl<'a> Sources for NodeSources<'a> {
    type Label = LabelSource;

    type Sample = SampleSource;

    ghost use Rattle.node_monitoring.specs.Families.{node_values};

    ghost values = { λ sources. node_values sources.metrics.now sources.gauges.now };

    fn count(&self, source: SampleSource) -> usize {
        match source {
            SampleSource::Requests => REQUEST_COUNT,
            SampleSource::Sites => self.metrics.site_count(),
            SampleSource::Buckets(_) => 12,
            SampleSource::Releases => {
                if has_series(self.gauges) {
                    self.gauges.releases.len()
                } else {
                    0
                }
            }
            SampleSource::SinceSwitch => match self.gauges.since_switch {
                Some(_) => 1,
                None => 0,
            },
            _ => 1,
        }
    }

    fn put_value(
        &self,
        out: &mut Vec<u8>,
        source: SampleSource,
        place: usize,
    ) -> Result<(), AllocError> {
        let metrics = self.metrics;
        let gauges = self.gauges;
        match source {
            SampleSource::Counted(counter) => put_number(out, metrics.counter(counter)),
            SampleSource::One => put_number(out, 1),
            SampleSource::Open => put_number(out, gauges.open),
            SampleSource::Held => put_number(out, gauges.held_bytes),
            SampleSource::Requests => put_number(out, metrics.requests.get(place)),
            SampleSource::Sites => put_number(out, metrics.sites.get(place)),
            SampleSource::Buckets(timing) => put_number(
                out,
                metrics.times.of(timing).bucket(place),
            ),
            SampleSource::Times(timing) => put_number(out, metrics.times.of(timing).count()),
            SampleSource::TimesSum(timing) => put_seconds(out, metrics.times.of(timing).sum()),
            SampleSource::Releases => put_number(out, seconds_at(gauges, place)),
            SampleSource::SinceSwitch => put_number(out, gauges.since_switch.unwrap_or(0)),
        }
    }

    fn put_label_value(
        &self,
        out: &mut Vec<u8>,
        source: LabelSource,
        text: &str,
        place: usize,
    ) -> Result<(), AllocError> {
        match source {
            LabelSource::Row => put_label(out, text.as_bytes()),
            LabelSource::Version => put_label(out, self.gauges.version),
            LabelSource::Target => put_label(out, name_in(&TARGETS, place / CLASS_COUNT)),
            LabelSource::Class => put_label(out, name_in(&CLASSES, place % CLASS_COUNT)),
            LabelSource::Site => put_label(out, self.metrics.name_at(place)),
            LabelSource::Bound => put_seconds(out, bound_at(place)),
            LabelSource::Package => put_label(out, package_at(self.gauges, place)),
        }
    }
}

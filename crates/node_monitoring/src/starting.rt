//! The responses about a node that does not answer readers yet.
ghost use Rattle.std.specs.Prelude.{IfOk, IfSome};
ghost use Rattle.feed_http_heads.specs.Options.{SaysWhetherItKeeps};
ghost use Rattle.node_monitoring.specs.Starting.{IsStartingResponse};

use crate::metrics::Metrics;
use crate::metrics_text::Gauges;
use crate::report::{ReportRequest, gets_report};
use crate::report_response::respond_about_node;
use crate::report_text::ReportResponse;
use std::alloc::{AllocError, Global};

/// Returns the response of a node that starts, if its client may have reports and the request is for one: the metrics,
/// or the health of a node without an active release, which is alive and not ready. Returns none for any other request.
///
/// # Errors
///
/// Running out of memory.
pub fn respond_at_start(
    alloc: Global,
    request: &ReportRequest<'_>,
    metrics: &Metrics,
    version: &[u8],
    open: u64,
) -> Result<Option<ReportResponse>, AllocError>
    ensures value { IfOk result
        (IsStartingResponse request.now.is_local request.now.is_open metrics.now request.now.received.bytes.now
        request.now.keeps) }
    ensures says { IfOk result (λ found. IfSome found (λ reply.
        SaysWhetherItKeeps request.now.keeps reply.bytes.items)) }
{
    let received = &request.received;
    if !gets_report(request.is_local, request.is_open, received) {
        return Ok(None);
    }
    let gauges = Gauges {
        version,
        open,
        held_bytes: 0,
        releases: &[],
        has_all_series: false,
        since_switch: None,
    };
    let found = respond_about_node(alloc, received, request.keeps, metrics, &gauges, b"")?;
    Ok(found)
}

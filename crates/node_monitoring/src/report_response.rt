//! The responses of a node about itself.
ghost use Rattle.std.specs.Prelude.{◌≡◌, IfOk, IfSome};
ghost use Rattle.httparse.specs.Grammar.{RequestHead};
ghost use Rattle.feed_http_heads.specs.Options.{SaysWhetherItKeeps};
ghost use Rattle.feed_http_heads.specs.Requests.{HasHead, is_get, is_head};
ghost use Rattle.node_monitoring.specs.ReportTexts.{status_of, report_text};
ghost use Rattle.node_monitoring.specs.Reports.{kind_of, kind_to, unready_body, fixed_body, body_of, is_ready};
ghost use Rattle.node_monitoring.specs.Reports.{IsReportTo, IsReportResponse};

use crate::metrics::Metrics;
use crate::metrics_text::{Gauges, put_metrics};
use crate::report::{Report, report_of};
use crate::report_text::{ReportKind, ReportResponse, report_response};
use node_request::{ParsedRequest, ReceivedRequest};
use std::alloc::{AllocError, Global};

pub(crate) const WELL: &[u8] = b"ok\n";

pub(crate) const UNREADY: &[u8] = b"no active release\n";

pub(crate) const BAD_METHOD: &[u8] = b"Method\n";

fn kind_of(is_allowed: bool, is_ready: bool, report: Report) -> ReportKind
    ensures { result ≡ kind_of is_allowed is_ready report }
{
    if !is_allowed {
        return ReportKind::BadMethod;
    }
    match report {
        Report::Metrics => ReportKind::Metrics,
        Report::Ready => {
            if is_ready {
                ReportKind::Well
            } else {
                ReportKind::Unready
            }
        }
        Report::Live => ReportKind::Well,
    }
}

fn kind_to(parsed: &ParsedRequest<'_>, is_ready: bool, report: Report) -> ReportKind
    ensures { (head : RequestHead) → HasHead parsed.now.request head → result ≡ kind_to head is_ready report }
{
    let is_allowed = parsed.request.is_get() || parsed.request.is_head();
    kind_of(is_allowed, is_ready, report)
}

// Returns whether the node has an active release, and none is missing.
fn is_ready(gauges: &Gauges<'_>, missing: &[u8]) -> bool
    ensures { result ≡ is_ready gauges.now missing.now }
{
    !gauges.releases.is_empty() && missing.is_empty()
}

fn unready_body(missing: &[u8]) -> &[u8]
    ensures { result.now ≡ unready_body missing.now }
{
    if missing.is_empty() { UNREADY } else { missing }
}

fn fixed_body(missing: &[u8], kind: ReportKind) -> &[u8]
    ensures { result.now ≡ fixed_body missing.now kind }
{
    match kind {
        ReportKind::Metrics => b"",
        ReportKind::Well => WELL,
        ReportKind::Unready => unready_body(missing),
        ReportKind::BadMethod => BAD_METHOD,
    }
}

fn body_of(
    alloc: Global,
    kind: ReportKind,
    metrics: &Metrics,
    gauges: &Gauges<'_>,
    missing: &[u8],
) -> Result<Vec<u8>, AllocError>
    ensures { IfOk result (λ body. body.items ≡ body_of metrics.now gauges.now missing.now kind) }
{
    if kind != ReportKind::Metrics {
        return Vec::from_slice(alloc, fixed_body(missing, kind));
    }
    let mut body = Vec::new(alloc);
    put_metrics(&mut body, metrics, gauges)?;
    Ok(body)
}

/// Returns the response to a request for a report: the metrics, or the health by whether there are active releases and
/// none is missing. `missing` has a line for each one that is, which the response then has. Only GET and HEAD are
/// allowed. Returns none for any other request. `keeps` is whether the connection persists after the response.
///
/// # Errors
///
/// Running out of memory.
pub fn respond_about_node(
    alloc: Global,
    received: &ReceivedRequest<'_>,
    keeps: bool,
    metrics: &Metrics,
    gauges: &Gauges<'_>,
    missing: &[u8],
) -> Result<Option<ReportResponse>, AllocError>
    ensures value { IfOk result
        (IsReportResponse metrics.now gauges.now missing.now received.now.bytes.now keeps) }
    ensures says { IfOk result (λ found. IfSome found (λ reply. SaysWhetherItKeeps keeps reply.bytes.items)) }
{
    let Some(parsed) = received.parsed() else {
        return Ok(None);
    };
    let Some(report) = report_of(&parsed) else {
        return Ok(None);
    };
    let kind = kind_to(&parsed, is_ready(gauges, missing), report);
    let body = body_of(alloc, kind, metrics, gauges, missing)?;
    let reply = report_response(alloc, kind, keeps, parsed.request.is_head(), &body)?;
    Ok(Some(reply))
}

//! The report that a request asks of a node.
ghost use Rattle.std.specs.Prelude.{◌≡◌, MatchBool};
ghost use Rattle.httparse.specs.Grammar.{RequestHead};
ghost use Rattle.feed_http_heads.specs.Requests.{HasHead};
ghost use Rattle.node_monitoring.specs.Reports.{gets_report, is_forwarded, is_near, may_report, report_in, report_of};
ghost use Rattle.node_monitoring.specs.Reports.{GetsReport, GetsNoReport};

use node_request::{ParsedRequest, ReceivedRequest, Route};

/// A report of a node about itself.
#[derive(Clone, Copy, Debug, PartialEq, Eq)]
pub enum Report {
    /// `/metrics`: what it has counted.
    Metrics,
    /// `/health` and `/health/ready`: whether it has an active release.
    Ready,
    /// `/health/live`: that it responds.
    Live,
}

/// A request, and what decides whether its client gets a report.
#[derive(Clone, Copy)]
pub struct ReportRequest<'b> {
    pub received: ReceivedRequest<'b>,
    /// Whether it came from the same machine.
    pub is_local: bool,
    /// Whether reports are open to all.
    pub is_open: bool,
    /// Whether the connection persists after the response.
    pub keeps: bool,
}

fn report_in(route: Route) -> Option<Report>
    ensures { result ≡ report_in route }
{
    match route {
        Route::Metrics => Some(Report::Metrics),
        Route::Health | Route::Ready => Some(Report::Ready),
        Route::Live => Some(Report::Live),
        _ => None,
    }
}

/// Returns what a request asks for, whatever its method is.
pub(crate) fn report_of(parsed: &ParsedRequest<'_>) -> Option<Report>
    ensures { (head : RequestHead) → HasHead parsed.now.request head → result ≡ report_of head }
{
    if parsed.request.lacks_host() {
        return None;
    }
    report_in(parsed.route)
}

// Returns whether a proxy passed the request on, and says so: by X-Forwarded-For, Forwarded (RFC 7239, section 4) or
// Via (RFC 9110, section 7.6.3).
fn is_forwarded(parsed: &ParsedRequest<'_>) -> bool
    ensures { (head : RequestHead) → HasHead parsed.now.request head → result ≡ is_forwarded head }
{
    let fields = parsed.request.fields();
    fields.has_field(b"x-forwarded-for")
        || fields.has_field(b"forwarded")
        || fields.has_field(b"via")
}

// Returns whether the client of a request from the same machine, or from another one, is on the same machine.
fn is_near(is_local: bool, parsed: &ParsedRequest<'_>) -> bool
    ensures { (head : RequestHead) → HasHead parsed.now.request head → result ≡ is_near is_local head }
{
    is_local && !is_forwarded(parsed)
}

// Returns whether a client may have reports: one on the same machine, and each one if reports are open to all.
fn may_report(is_local: bool, is_open: bool, parsed: &ParsedRequest<'_>) -> bool
    ensures { (head : RequestHead) → HasHead parsed.now.request head → result ≡ may_report is_local is_open head }
{
    is_near(is_local, parsed) || is_open
}

/// Returns whether a request gets a report: it asks for one, and its client may have it. `is_local` is whether it came
/// from the same machine, and `is_open` whether reports are open to all.
pub(crate) fn request_gets_report(is_local: bool, is_open: bool, parsed: &ParsedRequest<'_>) -> bool
    ensures { (head : RequestHead) → HasHead parsed.now.request head → result ≡ gets_report is_local is_open head }
{
    report_of(parsed).is_some() && may_report(is_local, is_open, parsed)
}

/// Returns whether the bytes are a request that gets a report, as it came from the same machine or another one.
pub fn gets_report(is_local: bool, is_open: bool, received: &ReceivedRequest<'_>) -> bool
    ensures { MatchBool result (GetsReport is_local is_open received.now.bytes.now)
        (GetsNoReport is_local is_open received.now.bytes.now) }
{
    match received.parsed() {
        Some(parsed) => request_gets_report(is_local, is_open, &parsed),
        None => false,
    }
}

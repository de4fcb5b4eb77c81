//! Records a request and its response: in the counters, and as a line of the log.
ghost use Rattle.std.specs.Prelude.{◌≡◌, ◌∷◌, ◌++◌, ℕ, List, OnOk};
ghost use Rattle.httparse.specs.Grammar.{RequestHead};
ghost use Rattle.feed_http_heads.specs.Requests.{HasHead};
ghost use Rattle.node_monitoring.specs.Counts.{Added, HasCounted};
ghost use Rattle.node_monitoring.specs.Histograms.{HasObserved, times_of};
ghost use Rattle.node_monitoring.specs.declared.histogram.Timing.TheVariants.{Request};
ghost use Rattle.node_monitoring.specs.Exchanges.{added_by, request_added, HasCountedRequest};
ghost use Rattle.node_monitoring.specs.Exchanges.{is_hidden, line_of, IsLogged, IsRecorded};
ghost use Rattle.node_monitoring.specs.SiteNames.{site_added, site_name};
ghost use Rattle.node_monitoring.specs.Targets.{target_of, target_in};

use crate::counter::Counter;
use crate::log_line::{LogPolicy, LoggedExchange, put_entry};
use crate::metrics::Metrics;
use crate::report::request_gets_report;
use crate::request_kind::{StatusClass, Target};
use feed_http_heads::Fields;
use node_request::{ParsedRequest, Route};
use std::alloc::AllocError;

// The fields of bytes that are not a head.
const NO_FIELDS: Fields<'static> = Fields {
    buffer: b"",
    headers: &[],
};

// Counts a request that was responded to, by the site that responded too, and the bytes of both. A response of status
// 401 refuses a token.
fn count_exchange(metrics: &mut Metrics, target: Target, exchange: &LoggedExchange<'_>)
    ensures requests { (history : List Added) → HasCounted metrics.old.requests history
        → HasCounted metrics.new.requests (request_added target exchange.now ∷ history) }
    ensures times { (observed : List ℕ) → HasObserved (times_of metrics.old.times Request) observed
        → HasObserved (times_of metrics.new.times Request) (exchange.now.micros ∷ observed) }
    ensures counters { (history : List Added) → HasCounted metrics.old.counters history
        → HasCounted metrics.new.counters (added_by exchange.now ++ history) }
    ensures names { metrics.new.site_names ≡ metrics.old.site_names }
    ensures sites { (history : List Added) → HasCounted metrics.old.sites history
        → HasCounted metrics.new.sites (site_added metrics.old.site_names exchange.now.site ++ history) }
{
    metrics.count_site(exchange.site);
    metrics.count_request(target, StatusClass::of(exchange.status), exchange.micros);
    metrics.add(Counter::RequestBytes, exchange.received.bytes.len() as u64);
    metrics.add(Counter::ReplyBytes, exchange.sent);
    if exchange.status == 401 {
        metrics.add(Counter::RefusedToken, 1);
    }
}

/// Appends the line of a request to which no site responded, without counting it.
///
/// # Errors
///
/// Running out of memory. A part of the line may be written then.
pub fn put_exchange(
    out: &mut Vec<u8>,
    policy: LogPolicy,
    exchange: &LoggedExchange<'_>,
) -> Result<(), AllocError>
    ensures { OnOk result (IsLogged policy exchange.now out.old.items out.new.items) }
{
    match exchange.received.parsed() {
        Some(parsed) => put_entry(out, policy, exchange, b"", &parsed.request.fields()),
        None => put_entry(out, policy, exchange, b"", &NO_FIELDS),
    }
}

fn is_hidden(policy: LogPolicy, parsed: &ParsedRequest<'_>) -> bool
    ensures { (head : RequestHead) → HasHead parsed.now.request head → result ≡ is_hidden policy head }
{
    request_gets_report(policy.is_local, policy.has_open_reports, parsed)
}

fn put_shown(
    out: &mut Vec<u8>,
    policy: LogPolicy,
    exchange: &LoggedExchange<'_>,
    site: &[u8],
    parsed: &ParsedRequest<'_>,
) -> Result<(), AllocError>
    ensures { OnOk result ((head : RequestHead) → HasHead parsed.now.request head
        → out.new.items ≡ out.old.items ++ line_of policy exchange.now site.now head) }
{
    if is_hidden(policy, parsed) {
        return Ok(());
    }
    put_entry(out, policy, exchange, site, &parsed.request.fields())
}

fn record_request(
    out: &mut Vec<u8>,
    metrics: &mut Metrics,
    policy: LogPolicy,
    exchange: &LoggedExchange<'_>,
    parsed: &ParsedRequest<'_>,
) -> Result<(), AllocError>
    ensures requests { (head : RequestHead) → HasHead parsed.now.request head → (history : List Added)
        → HasCounted metrics.old.requests history
        → HasCounted metrics.new.requests (request_added (target_of head) exchange.now ∷ history) }
    ensures times { (observed : List ℕ) → HasObserved (times_of metrics.old.times Request) observed
        → HasObserved (times_of metrics.new.times Request) (exchange.now.micros ∷ observed) }
    ensures counters { (history : List Added) → HasCounted metrics.old.counters history
        → HasCounted metrics.new.counters (added_by exchange.now ++ history) }
    ensures names { metrics.new.site_names ≡ metrics.old.site_names }
    ensures sites { (history : List Added) → HasCounted metrics.old.sites history
        → HasCounted metrics.new.sites (site_added metrics.old.site_names exchange.now.site ++ history) }
    ensures line { OnOk result ((head : RequestHead) → HasHead parsed.now.request head → out.new.items
        ≡ out.old.items ++ line_of policy exchange.now (site_name metrics.old.site_names exchange.now.site) head) }
{
    count_exchange(metrics, target_in(parsed.route), exchange);
    put_shown(
        out,
        policy,
        exchange,
        metrics.site_name(exchange.site),
        parsed,
    )
}

/// Counts a request that was responded to, and appends its line, with the name of the site. A request that gets a
/// report has no line.
///
/// # Errors
///
/// Running out of memory. The request is counted, and a part of the line may be written then.
pub fn record_exchange(
    out: &mut Vec<u8>,
    metrics: &mut Metrics,
    policy: LogPolicy,
    exchange: &LoggedExchange<'_>,
) -> Result<(), AllocError>
    ensures counted { HasCountedRequest exchange.now metrics.old metrics.new }
    ensures counters { (history : List Added) → HasCounted metrics.old.counters history
        → HasCounted metrics.new.counters (added_by exchange.now ++ history) }
    ensures line { OnOk result (IsRecorded policy exchange.now
        (site_name metrics.old.site_names exchange.now.site) out.old.items out.new.items) }
{
    match exchange.received.parsed() {
        Some(parsed) => record_request(out, metrics, policy, exchange, &parsed),
        None => {
            count_exchange(metrics, Target::Other, exchange);
            put_entry(
                out,
                policy,
                exchange,
                metrics.site_name(exchange.site),
                &NO_FIELDS,
            )
        }
    }
}

/// Returns the target under which the requests of a route are counted.
pub(crate) fn target_in(route: Route) -> Target
    ensures { result ≡ target_in route }
{
    match route {
        Route::Home => Target::Home,
        Route::Status => Target::Status,
        Route::Resolve | Route::Package => Target::Resolve,
        Route::Go => Target::Go,
        Route::Titles => Target::Titles,
        Route::Feed | Route::Fetch => Target::Feed,
        Route::Metrics => Target::Metrics,
        Route::Health | Route::Ready | Route::Live => Target::Health,
        Route::Sites | Route::Unknown => Target::Other,
    }
}

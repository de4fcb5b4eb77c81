//! Interprets a request that a node read its folder of site files again: a POST of `/sites`.
ghost use Rattle.std.specs.Prelude.{◌≡◌};
ghost use Rattle.httparse.specs.Grammar.{RequestHead};
ghost use Rattle.feed_http_heads.specs.Requests.{HasHead};
ghost use Rattle.node_request.specs.SitesRequests.{sites_query, sites_at, sites_asked, authorized_sites};
ghost use Rattle.node_request.specs.SitesRequests.{IsSitesRequest, IsSitesToRead};

use crate::authorization::{FetchPolicy, is_authorized};
use crate::received::{ParsedRequest, ReceivedRequest};
use crate::route::{Route, query_in};
use feed_http_heads::origin_form;

/// The request of a client about the folder of site files.
#[derive(Clone, Copy, Debug, PartialEq, Eq)]
pub enum SitesRequest {
    /// The sites of the folder begin, unless a file has a fault.
    Reload,
    /// The files are only checked: `/sites?check`.
    Check,
}

/// Returns what the query of `/sites` asks for, or none if it is neither empty nor `check`.
pub fn sites_query(query: &[u8]) -> Option<SitesRequest>
    ensures { result ≡ sites_query query.now }
{
    if query == b"".as_slice() {
        Some(SitesRequest::Reload)
    } else if query == b"check".as_slice() {
        Some(SitesRequest::Check)
    } else {
        None
    }
}

fn sites_at(route: Route, target: &[u8]) -> Option<SitesRequest>
    ensures { result ≡ sites_at route target.now }
{
    match route {
        Route::Sites => sites_query(query_in(target)),
        _ => None,
    }
}

fn sites_asked(parsed: &ParsedRequest<'_>) -> Option<SitesRequest>
    ensures { (head : RequestHead) → HasHead parsed.now.request head → result ≡ sites_asked head }
{
    if parsed.request.method() == b"POST".as_slice() {
        sites_at(parsed.route, origin_form(parsed.request.target()))
    } else {
        None
    }
}

fn authorized_sites(token: &[u8], parsed: &ParsedRequest<'_>) -> Option<SitesRequest>
    ensures { (head : RequestHead) → HasHead parsed.now.request head → result ≡ authorized_sites token.now head }
{
    if !parsed.request.lacks_host() && is_authorized(token, &parsed.request) {
        sites_asked(parsed)
    } else {
        None
    }
}

/// Returns what a request with the token asks for, if it is a POST of `/sites` with a valid query. Returns none for any
/// other request.
pub fn sites_request(received: &ReceivedRequest<'_>, token: &[u8]) -> Option<SitesRequest>
    ensures { IsSitesRequest token.now received.now.bytes.now result }
{
    let parsed = received.parsed()?;
    authorized_sites(token, &parsed)
}

/// Returns what a node does with its folder next: what an authorized request asks for, unless the node has no token or
/// is reading the folder.
pub fn sites_to_read(
    received: &ReceivedRequest<'_>,
    policy: &FetchPolicy<'_>,
) -> Option<SitesRequest>
    ensures { IsSitesToRead policy.now received.now.bytes.now result }
{
    if policy.is_reloading {
        return None;
    }
    match policy.token {
        Some(token) => sites_request(received, token),
        None => None,
    }
}

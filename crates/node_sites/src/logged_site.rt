//! The site that responds to a request, as the log and the metrics name it.
ghost use Rattle.std.specs.Prelude.{◌≡◌};
ghost use Rattle.httparse.specs.Grammar.{RequestHead};
ghost use Rattle.feed_http_heads.specs.Requests.{HasHead};
ghost use Rattle.node_sites.specs.SitePlaces.{is_readers, site_place, IsSitePlace};

use crate::node_sites::NodeSites;
use node_request::{ParsedRequest, ReceivedRequest, Route, host_of};

// Returns whether a route is a reader's, by whose host a site responds. An operator's takes any host.
fn is_readers(route: Route) -> bool
    ensures { result ≡ is_readers route }
{
    match route {
        Route::Home
        | Route::Status
        | Route::Resolve
        | Route::Package
        | Route::Go
        | Route::Titles
        | Route::Unknown => true,
        _ => false,
    }
}

fn place_in(sites: &NodeSites, parsed: &ParsedRequest<'_>) -> Option<usize>
    ensures { (head : RequestHead) → HasHead parsed.now.request head → result ≡ site_place sites.now head }
{
    if parsed.request.lacks_host() || !is_readers(parsed.route) {
        return None;
    }
    sites.place(host_of(&parsed.request))
}

/// Returns the place of the site of the host that a reader's request is for. There is none if that host has no site, if
/// the request is an operator's or names no host, or if the bytes are not a request.
pub fn site_place(sites: &NodeSites, received: &ReceivedRequest<'_>) -> Option<usize>
    ensures { IsSitePlace sites.now received.now.bytes.now result }
{
    match received.parsed() {
        Some(parsed) => place_in(sites, &parsed),
        None => None,
    }
}

//! Interprets a fetch request: a POST whose target is `/feed/` and the name of a release.
ghost use Rattle.std.specs.Prelude.{◌≡◌, option_copied};
ghost use Rattle.httparse.specs.Grammar.{RequestHead};
ghost use Rattle.feed_http_heads.specs.Requests.{HasHead};
ghost use Rattle.node_request.specs.FetchRequests.{name_after_feed, name_at, name_to_fetch, authorized_name};
ghost use Rattle.node_request.specs.FetchRequests.{IsAskedRelease, IsFetchRequest, IsFetchToBegin};

use crate::authorization::{FetchPolicy, is_authorized};
use crate::received::{ParsedRequest, ReceivedRequest};
use crate::route::{Route, path_in};
use feed_http_heads::origin_form;
use feed_names::{NameFault, ReleaseName};
use std::alloc::Global;

fn name_after_feed(path: &[u8]) -> Option<&[u8]>
    ensures { option_copied result ≡ name_after_feed path.now }
{
    let (front, rest) = path.split_at_checked(6)?;
    if front == b"/feed/".as_slice() {
        Some(rest)
    } else {
        None
    }
}

fn name_at(route: Route, path: &[u8]) -> Option<&[u8]>
    ensures { option_copied result ≡ name_at route path.now }
{
    match route {
        Route::Fetch => name_after_feed(path),
        _ => None,
    }
}

/// Returns the text after `/feed/` if the request is a POST of such a target.
pub fn name_to_fetch<'b>(parsed: &ParsedRequest<'b>) -> Option<&'b [u8]>
    ensures { (head : RequestHead) → HasHead parsed.now.request head
        → option_copied result ≡ name_to_fetch head }
{
    if parsed.request.method() == b"POST".as_slice() {
        name_at(parsed.route, path_in(origin_form(parsed.request.target())))
    } else {
        None
    }
}

fn authorized_name<'b>(token: &[u8], parsed: &ParsedRequest<'b>) -> Option<&'b [u8]>
    ensures { (head : RequestHead) → HasHead parsed.now.request head
        → option_copied result ≡ authorized_name token.now head }
{
    if !parsed.request.lacks_host() && is_authorized(token, &parsed.request) {
        name_to_fetch(parsed)
    } else {
        None
    }
}

fn asked_release(
    alloc: Global,
    token: &[u8],
    parsed: &ParsedRequest<'_>,
) -> Option<Result<ReleaseName, NameFault>>
    ensures { (head : RequestHead) → HasHead parsed.now.request head → IsAskedRelease token.now head result }
{
    Some(ReleaseName::parse(alloc, authorized_name(token, parsed)?))
}

/// Returns the release that a request with the token asks to fetch, or why the text after `/feed/` is not a release
/// name. Returns none for any other request.
pub fn fetch_request(
    alloc: Global,
    received: &ReceivedRequest<'_>,
    token: &[u8],
) -> Option<Result<ReleaseName, NameFault>>
    ensures { IsFetchRequest token.now received.now.bytes.now result }
{
    let parsed = received.parsed()?;
    asked_release(alloc, token, &parsed)
}

/// Returns the release that a node begins to fetch: the one that an authorized request asks for, unless the node has no
/// token or is fetching another release.
pub fn fetch_to_begin(
    alloc: Global,
    received: &ReceivedRequest<'_>,
    policy: &FetchPolicy<'_>,
) -> Option<Result<ReleaseName, NameFault>>
    ensures { IsFetchToBegin policy.now received.now.bytes.now result }
{
    if policy.is_busy {
        return None;
    }
    match policy.token {
        Some(token) => fetch_request(alloc, received, token),
        None => None,
    }
}

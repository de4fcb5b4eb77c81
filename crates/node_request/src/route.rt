//! The route of a request: what its target names.
ghost use Rattle.std.specs.Prelude.{◌≡◌};
ghost use Rattle.httparse.specs.Grammar.{RequestHead};
ghost use Rattle.feed_http_heads.specs.Requests.{IsInBuffer, HasHead};
ghost use Rattle.node_request.specs.Routes.{names_package, package_in, path_in, query_in, is_unsupported_method};
ghost use Rattle.node_request.specs.Routes.{names_fetch, route_at, route_of};

use feed_bytes::{split_once, strip_prefix};
use feed_http_heads::{Request, origin_form};

/// The page, the data or the fetch that the target of a request names.
#[derive(Clone, Copy, Debug, PartialEq, Eq)]
pub enum Route {
    /// `/`: the page with the forms and the packages.
    Home,
    /// `/status`: the active releases.
    Status,
    /// `/resolve`: the hits in all packages.
    Resolve,
    /// `/resolve/` and a package: the hits in it.
    Package,
    /// `/go`: a redirect to the best hit.
    Go,
    /// `/titles`: the titles that contain a text.
    Titles,
    /// `/feed`: the recorded releases and the last fetches.
    Feed,
    /// `/feed/` and more, in any case of letters. Only `/feed/` itself names a release to fetch.
    Fetch,
    /// `/metrics`: what the node has counted.
    Metrics,
    /// `/health`: whether the node has an active release.
    Health,
    /// `/health/ready`: the same.
    Ready,
    /// `/health/live`: that the node responds.
    Live,
    /// `/sites`: the folder of site files, which a client may have the node read again.
    Sites,
    /// No target of a node.
    Unknown,
}

/// Returns the path of a target in origin form.
pub fn path_in(target: &[u8]) -> &[u8]
    ensures { result.now ≡ path_in target.now }
{
    match split_once(target, b'?') {
        Some((path, _)) => path,
        None => target,
    }
}

/// Returns the query of a target in origin form. It is empty if there is none.
pub fn query_in(target: &[u8]) -> &[u8]
    ensures { result.now ≡ query_in target.now }
{
    match split_once(target, b'?') {
        Some((_, query)) => query,
        None => b"",
    }
}

fn names_package(path: &[u8]) -> bool
    ensures { result ≡ names_package path.now }
{
    let front = &path[..path.len().min(9)];
    front == b"/resolve/".as_slice()
}

/// Returns the package that a path after `/resolve/` names. Decodes nothing.
pub fn package_in(path: &[u8]) -> &[u8]
    ensures { result.now ≡ package_in path.now }
{
    &path[path.len().min(9)..]
}

fn names_fetch(path: &[u8]) -> bool
    ensures { result ≡ names_fetch path.now }
{
    strip_prefix(path, b"/feed/").is_some()
}

/// Returns the route that a path names. Decodes nothing.
pub fn route_at(path: &[u8]) -> Route
    ensures { result ≡ route_at path.now }
{
    if path == b"/".as_slice() {
        Route::Home
    } else if path == b"/status".as_slice() {
        Route::Status
    } else if path == b"/resolve".as_slice() {
        Route::Resolve
    } else if path == b"/go".as_slice() {
        Route::Go
    } else if path == b"/titles".as_slice() {
        Route::Titles
    } else if names_package(path) {
        Route::Package
    } else if path == b"/feed".as_slice() {
        Route::Feed
    } else if names_fetch(path) {
        Route::Fetch
    } else if path == b"/metrics".as_slice() {
        Route::Metrics
    } else if path == b"/health".as_slice() {
        Route::Health
    } else if path == b"/health/ready".as_slice() {
        Route::Ready
    } else if path == b"/health/live".as_slice() {
        Route::Live
    } else if path == b"/sites".as_slice() {
        Route::Sites
    } else {
        Route::Unknown
    }
}

/// Returns the route that the target of a request names, whatever its method is.
pub(crate) fn route_of(request: &Request<'_>) -> Route
    requires { IsInBuffer request.now }
    ensures { (head : RequestHead) → HasHead request.now head → result ≡ route_of head }
{
    route_at(path_in(origin_form(request.target())))
}

/// Returns whether a method is one that RFC 9110 (section 9.3) names, other than GET and HEAD.
pub fn is_unsupported_method(method: &[u8]) -> bool
    ensures { result ≡ is_unsupported_method method.now }
{
    method == b"POST".as_slice()
        || method == b"PUT".as_slice()
        || method == b"DELETE".as_slice()
        || method == b"CONNECT".as_slice()
        || method == b"OPTIONS".as_slice()
        || method == b"TRACE".as_slice()
}

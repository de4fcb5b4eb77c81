//! The first line of a request, as the log of a node shows it: whole, or without what a reader asks.
ghost use Rattle.std.specs.Prelude.{◌≡◌};
ghost use Rattle.httparse.specs.Grammar.{RequestHead, print_version};
ghost use Rattle.feed_http_heads.specs.Requests.{HasHead};
ghost use Rattle.node_monitoring.specs.Queries.{shown_text};
ghost use Rattle.node_monitoring.specs.ShownLines.{behind_method, is_known_method, is_version, line_of_parts, spaced};
ghost use Rattle.node_monitoring.specs.ShownLines.{plain_line, shown_line, shown_method, shown_path, shown_target};

use crate::request_line::{RequestLine, first_line};
use crate::shown_path::is_shown;
use feed_bytes::split_once;
use feed_http_heads::origin_form;
use node_request::{
    ParsedRequest, ReceivedRequest, Route, is_unsupported_method, path_in, route_at,
};

fn is_known_method(method: &[u8]) -> bool
    ensures { result ≡ is_known_method method.now }
{
    method == b"GET".as_slice() || method == b"HEAD".as_slice() || is_unsupported_method(method)
}

// Returns the method, or a dash in place of one that RFC 9110 does not name: the end of a form that was sent before may
// be part of it.
fn shown_method(method: &[u8]) -> &[u8]
    ensures { result.now ≡ shown_method method.now }
{
    if is_known_method(method) {
        method
    } else {
        b"-"
    }
}

fn shown_path(route: Route, path: &[u8]) -> &[u8]
    ensures { result.now ≡ shown_path route path.now }
{
    if is_shown(route, path) { path } else { b"-" }
}

// Returns the path of a target, or a dash if it is not one of the node's.
fn shown_target(target: &[u8]) -> &[u8]
    ensures { result.now ≡ shown_target target.now }
{
    let path = path_in(origin_form(target));
    shown_path(route_at(path), path)
}

fn is_version(text: &[u8]) -> bool
    ensures { result ≡ is_version text.now }
{
    text == b"HTTP/1.1".as_slice() || text == b"HTTP/1.0".as_slice()
}

fn line_of_parts<'a>(method: &'a [u8], target: &'a [u8], version: &'a [u8]) -> RequestLine<'a>
    ensures { shown_text result ≡ line_of_parts method.now target.now version.now }
{
    if is_version(version) {
        RequestLine::of_parts(shown_method(method), shown_target(target), version)
    } else {
        RequestLine::whole(b"-")
    }
}

fn behind_method<'a>(method: &'a [u8], rest: &'a [u8]) -> RequestLine<'a>
    ensures { shown_text result ≡ behind_method method.now rest.now }
{
    match split_once(rest, b' ') {
        Some((target, version)) => line_of_parts(method, target, version),
        None => RequestLine::whole(b"-"),
    }
}

// Returns a line without what a reader asks, or a dash if it is not a request line.
fn plain_line(line: &[u8]) -> RequestLine<'_>
    ensures { shown_text result ≡ plain_line line.now }
{
    match split_once(line, b' ') {
        Some((method, rest)) => behind_method(method, rest),
        None => RequestLine::whole(b"-"),
    }
}

fn method_of<'b>(parsed: &ParsedRequest<'b>) -> &'b [u8]
    ensures { (head : RequestHead) → HasHead parsed.now.request head → result.now ≡ head.method }
{
    parsed.request.spans.method.of(parsed.request.buffer)
}

fn version_of(parsed: &ParsedRequest<'_>) -> &'static [u8]
    ensures { (head : RequestHead) → HasHead parsed.now.request head → result.now ≡ print_version head.minor }
{
    if parsed.request.spans.version == 1 {
        b"HTTP/1.1"
    } else {
        b"HTTP/1.0"
    }
}

// Returns the same line of the parts of a request that was parsed, without splitting its bytes again.
fn parsed_line<'b>(parsed: &ParsedRequest<'b>) -> RequestLine<'b>
    ensures { (head : RequestHead) → HasHead parsed.now.request head → shown_text result
        ≡ spaced (shown_method head.method) (shown_target head.target) (print_version head.minor) }
{
    let method = shown_method(method_of(parsed));
    let path = path_in(origin_form(parsed.request.target()));
    RequestLine::of_parts(method, shown_path(parsed.route, path), version_of(parsed))
}

/// Returns the first line of a request that is not empty, as the log shows it.
pub(crate) fn shown_line<'b>(has_queries: bool, received: &ReceivedRequest<'b>) -> RequestLine<'b>
    ensures { shown_text result ≡ shown_line has_queries received.now.bytes.now }
{
    let line = first_line(received.bytes);
    if has_queries {
        return RequestLine::whole(line);
    }
    match received.parsed() {
        Some(parsed) => parsed_line(&parsed),
        None => plain_line(line),
    }
}

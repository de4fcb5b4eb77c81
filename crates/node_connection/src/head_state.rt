//! Decides whether the bytes held begin with a request, and what follows its response.
ghost use Rattle.std.specs.Prelude.{◌≡◌, ◌==◌, ◌≤◌, ℕ, true, false};
ghost use Rattle.httparse.specs.Grammar.{RequestHead};
ghost use Rattle.feed_http_heads.specs.Requests.{IsInBuffer, HasHead};
ghost use Rattle.node_connection.specs.HeldBytes.{covers, covers_head};
ghost use Rattle.node_connection.specs.Requests.{is_post, stated_len, states_len, persists};
ghost use Rattle.node_connection.specs.Requests.{body_len_of, expects_continue};
ghost use Rattle.node_connection.specs.Responses.{IsHeadState, IsFound, after_response};

use crate::held_bytes::HeldBytes;
use crate::respond::Respond;
use feed_bytes::read_number;
use feed_http_heads::Request;
use node_request::ParsedRequest;

/// The state of a connection after a response was sent.
#[derive(Clone, Copy, Debug, PartialEq, Eq)]
pub enum AfterResponse {
    /// The next request.
    Persist,
    /// Further bytes from the peer are dropped until it closes its side: a connection that is closed before bytes of
    /// the peer arrive may lose the response (RFC 9112, section 9.6).
    Linger,
    /// The body of the same request: the response was an interim one.
    Receive,
}

pub(crate) fn after_response(persists: bool) -> AfterResponse
    ensures { result ≡ after_response persists }
{
    if persists {
        AfterResponse::Persist
    } else {
        AfterResponse::Linger
    }
}

/// The head of a request at the front of the bytes held.
#[derive(Clone, Copy)]
pub(crate) struct FoundRequest {
    pub(crate) head_len: usize,
    /// The length of the body that the responder wants, or 0 if the head states another length.
    pub(crate) body_len: usize,
    /// Whether the connection persists after the response.
    pub(crate) persists: bool,
    /// Whether the client waits for an interim response before it sends the body.
    pub(crate) expects_continue: bool,
}

/// Whether bytes begin with a request.
#[derive(Clone, Copy)]
pub(crate) enum HeadState {
    /// The head is incomplete.
    Incomplete,
    /// They begin with this head.
    Whole(FoundRequest),
    /// They never will, whatever follows.
    Invalid,
}

fn stated_len(request: &Request<'_>) -> Option<u64>
    requires { IsInBuffer request.now }
    ensures { (head : RequestHead) → HasHead request.now head → result ≡ stated_len head }
{
    let fields = request.fields();
    if fields.has_field(b"transfer-encoding") {
        return None;
    }
    if !fields.has_field(b"content-length") {
        return Some(0);
    }
    match fields.sole_value(b"content-length") {
        Some(value) => read_number(value),
        None => None,
    }
}

fn states_len(request: &Request<'_>, size: usize) -> bool
    requires { IsInBuffer request.now }
    ensures { (head : RequestHead) → HasHead request.now head → result ≡ states_len head size }
{
    match stated_len(request) {
        Some(stated) => stated == size as u64,
        None => false,
    }
}

fn is_post(request: &Request<'_>) -> bool
    requires { IsInBuffer request.now }
    ensures { (head : RequestHead) → HasHead request.now head → result ≡ is_post head }
{
    request.method() == b"POST".as_slice()
}

fn is_http_1_1(request: &Request<'_>) -> bool
    requires { IsInBuffer request.now }
    ensures { (head : RequestHead) → HasHead request.now head → result ≡ (head.minor == 1) }
{
    request.spans.version == 1
}

fn persists(request: &Request<'_>, size: usize) -> bool
    requires { IsInBuffer request.now }
    ensures { (head : RequestHead) → HasHead request.now head → result ≡ persists head size }
{
    is_http_1_1(request)
        && (!is_post(request) || 0 < size)
        && request.fields().lacks_option(b"connection", b"close")
        && states_len(request, size)
}

fn body_len(request: &Request<'_>, wanted: usize) -> usize
    requires { IsInBuffer request.now }
    ensures value { (head : RequestHead) → HasHead request.now head → result ≡ body_len_of wanted head }
    ensures bound { result ≤ wanted }
{
    if states_len(request, wanted) {
        wanted
    } else {
        0
    }
}

fn expects_continue(request: &Request<'_>) -> bool
    requires { IsInBuffer request.now }
    ensures { (head : RequestHead) → HasHead request.now head → result ≡ expects_continue head }
{
    is_http_1_1(request) && !request.fields().lacks_option(b"expect", b"100-continue")
}

// Returns the facts about a head, if the responder wants a body of this length.
fn found(parsed: &ParsedRequest<'_>, wanted: usize) -> FoundRequest
    ensures found { (head : RequestHead) → HasHead parsed.now.request head
        → IsFound head parsed.now.request.spans.len wanted result }
    ensures len { result.head_len ≡ parsed.now.request.spans.len }
    ensures bound { result.body_len ≤ wanted }
{
    let request = &parsed.request;
    let body_len = body_len(request, wanted);
    FoundRequest {
        head_len: request.spans.len,
        body_len,
        persists: persists(request, body_len),
        expects_continue: expects_continue(request),
    }
}

/// Finds the head at the front of the bytes held.
pub(crate) fn head_state<R: Respond>(held: &mut HeldBytes, responder: &R) -> HeadState
    ensures bytes { held.new.bytes ≡ held.old.bytes }
    ensures state { IsHeadState (R.wanted responder.now) held.old.bytes.items result }
    ensures covers { covers_head held.new result ≡ true }
    ensures kept { (size : ℕ) → covers held.old size ≡ true → covers held.new size ≡ true }
{
    if !held.find() {
        return HeadState::Incomplete;
    }
    match held.parsed() {
        Some(parsed) => HeadState::Whole(found(&parsed, responder.body_len(&parsed))),
        None => HeadState::Invalid,
    }
}

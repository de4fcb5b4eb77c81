//! A request as a node received it, parsed once: its bytes, its head, and the route that its target names.
ghost use Rattle.std.specs.Prelude.{◌≡◌, MatchOption};
ghost use Rattle.std.proofs.Props.{props};
ghost use Rattle.httparse.specs.Grammar.{RequestHead};
ghost use Rattle.feed_http_heads.specs.Requests.{IsInBuffer, HasHead};
ghost use Rattle.node_request.specs.FoundRequests.{BeginsWith, HasNoHead, IsFoundIn};
ghost use Rattle.node_request.specs.Routes.{route_of};

use crate::route::{Route, route_of};
use feed_http_heads::{FIELD_LIMIT, HeadFound, Request, find_head};
use httparse::spans::HeaderSpan;

/// The head of a request, and the route that its target names.
#[derive(Clone, Copy)]
pub struct ParsedRequest<'b> {
    pub request: Request<'b>,
    pub route: Route,
    ghost within: { IsInBuffer request } by { Prim.hlevel props },
    ghost routed: { (head : RequestHead) → HasHead request head → route ≡ route_of head },
}

impl<'b> ParsedRequest<'b> {
    /// Returns the request with its route.
    pub fn new(request: Request<'b>) -> ParsedRequest<'b>
        requires { IsInBuffer request }
        ensures { result.request ≡ request.entry }
    {
        ParsedRequest {
            request,
            route: route_of(&request),
        }
    }
}

/// The bytes of a request as they were received, and what was parsed of them.
#[derive(Clone, Copy)]
pub struct ReceivedRequest<'b> {
    /// The head of a request and what follows it, or bytes that are not a request, whatever follows.
    pub bytes: &'b [u8],
    /// The request whose head the bytes begin with.
    parsed: Option<ParsedRequest<'b>>,
    ghost found: { ∥ MatchOption parsed (HasNoHead bytes.now) (λ one. IsFoundIn bytes.now one.request) ∥₁ },
}

fn found_in<'b>(
    bytes: &'b [u8],
    headers: &'b mut [HeaderSpan; FIELD_LIMIT],
) -> Option<ParsedRequest<'b>>
    ensures { MatchOption result (HasNoHead bytes.now) (λ one. IsFoundIn bytes.now one.request) }
{
    match find_head(bytes, headers) {
        HeadFound::Whole(spans) => Some(ParsedRequest::new(Request::new(bytes, headers, spans))),
        HeadFound::Unfinished => None,
        HeadFound::Never => None,
    }
}

impl<'b> ReceivedRequest<'b> {
    /// Returns the bytes with the head that was parsed of them.
    pub fn new(bytes: &'b [u8], parsed: Option<ParsedRequest<'b>>) -> ReceivedRequest<'b>
        requires { MatchOption parsed (HasNoHead bytes.now) (λ one. IsFoundIn bytes.now one.request) }
        ensures { result.bytes.now ≡ bytes.now }
    {
        ReceivedRequest { bytes, parsed }
    }

    /// Parses bytes: finds the head at their front, within the limits. Uses the headers for its fields.
    pub fn parse(bytes: &'b [u8], headers: &'b mut [HeaderSpan; FIELD_LIMIT]) -> ReceivedRequest<'b>
        ensures { result.bytes.now ≡ bytes.now }
    {
        ReceivedRequest::new(bytes, found_in(bytes, headers))
    }

    /// Returns the request whose head the bytes begin with, or none if they begin with no head within the limits.
    pub fn parsed(&self) -> Option<ParsedRequest<'b>>
        ensures { MatchOption result (HasNoHead self.now.bytes.now)
            (λ one. IsFoundIn self.now.bytes.now one.request) }
    {
        self.parsed
    }
}

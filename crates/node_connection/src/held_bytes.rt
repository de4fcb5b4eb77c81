//! The bytes that a connection holds, and the head of a request at their front, which is parsed once.
ghost use Rattle.std.specs.Prelude.{◌≡◌, ◌≤◌, ◌++◌, ℕ, [], true, false, length, take, drop, vec_len};
ghost use Rattle.std.specs.Prelude.{if◌then◌else◌, is_ok, IfSome, MatchOption};
ghost use Rattle.httparse.specs.Grammar.{RequestHead};
ghost use Rattle.feed_http_heads.specs.HeadEnds.{IsHeadFound};
ghost use Rattle.feed_http_heads.specs.Limits.{head_limit, field_limit};
ghost use Rattle.feed_http_heads.specs.RequestHeads.{IsUnfinished, NeverBeginsWithHead};
ghost use Rattle.node_request.specs.FoundRequests.{BeginsWith, IsFoundIn};
ghost use Rattle.node_request.specs.Routes.{route_of};

use feed_http_heads::{FIELD_LIMIT, HeadFound, Request, find_head};
use httparse::spans::{EMPTY_HEADER_SPAN, HeaderSpan};
use node_request::{ParsedRequest, ReceivedRequest, Route};
use std::alloc::{AllocError, Global};

/// The bytes held, with the head at their front if it was found.
#[derive(Drop)]
pub(crate) struct HeldBytes {
    pub(crate) bytes: Vec<u8>,
    /// The number of bytes that were parsed.
    seen: usize,
    /// The head at their front, or why there is none.
    found: HeadFound,
    /// The places of the fields of the head.
    headers: [HeaderSpan; FIELD_LIMIT],
    /// The route that the target of the head names.
    route: Route,
    ghost within: { seen ≤ vec_len bytes },
    ghost known: { ∥ IsHeadFound head_limit field_limit (take seen bytes.items) headers found ∥₁ },
    ghost routed: { (head : RequestHead) → BeginsWith (take seen bytes.items) head → route ≡ route_of head },
}

impl HeldBytes {
    ghost use Rattle.node_connection.specs.HeldBytes.{covers};

    /// Returns no bytes.
    pub(crate) fn new(alloc: Global) -> HeldBytes
        ensures { result.bytes.items ≡ [] }
    {
        HeldBytes {
            bytes: Vec::new(alloc),
            seen: 0,
            found: HeadFound::Unfinished,
            headers: [EMPTY_HEADER_SPAN; FIELD_LIMIT],
            route: Route::Unknown,
        }
    }

    /// Adds bytes to the end.
    pub(crate) fn append(&mut self, more: &[u8]) -> Result<(), AllocError>
        ensures items { self.new.bytes.items ≡
            (if is_ok result then self.old.bytes.items ++ more.now else self.old.bytes.items) }
        ensures covers { (size : ℕ) → covers self.new size ≡ covers self.old size }
    {
        self.bytes.extend_from_slice(more)
    }

    /// Drops the first bytes. Those after them were not parsed.
    pub(crate) fn drop_front(&mut self, count: usize)
        requires { count ≤ vec_len self.old.bytes }
        ensures { self.new.bytes.items ≡ drop count self.old.bytes.items }
    {
        self.bytes.drain(..count);
        self.seen = 0;
        self.found = HeadFound::Unfinished;
    }

    /// Finds the head at the front, unless it was found before. Returns whether there is one, or never will be.
    pub(crate) fn find(&mut self) -> bool
        ensures bytes { self.new.bytes ≡ self.old.bytes }
        ensures unfinished { result ≡ false → IsUnfinished head_limit self.old.bytes.items }
        ensures found { result ≡ true → covers self.new (length self.old.bytes.items) ≡ true }
        ensures kept { (size : ℕ) → covers self.old size ≡ true → covers self.new size ≡ true }
    {
        match self.found {
            HeadFound::Unfinished => self.parse(),
            _ => true,
        }
    }

    fn parse(&mut self) -> bool
        ensures bytes { self.new.bytes ≡ self.old.bytes }
        ensures unfinished { result ≡ false → IsUnfinished head_limit self.old.bytes.items }
        ensures found { result ≡ true → covers self.new (length self.old.bytes.items) ≡ true }
    {
        self.found = find_head(&self.bytes, &mut self.headers);
        self.seen = self.bytes.len();
        match self.found {
            HeadFound::Whole(spans) => {
                let request = Request::new(&self.bytes, &self.headers, spans);
                self.route = ParsedRequest::new(request).route;
                true
            }
            HeadFound::Unfinished => false,
            HeadFound::Never => true,
        }
    }

    /// Returns the request whose head was found.
    pub(crate) fn parsed(&self) -> Option<ParsedRequest<'_>>
        ensures covers { IfSome result (λ one. covers self.now one.request.spans.len ≡ true) }
        ensures found { (size : ℕ) → covers self.now size ≡ true → MatchOption result
            (NeverBeginsWithHead head_limit field_limit (take size self.now.bytes.items))
            (λ one. IsFoundIn (take size self.now.bytes.items) one.request) }
    {
        match self.found {
            HeadFound::Whole(spans) => {
                let request = Request::new(&self.bytes[..self.seen], &self.headers, spans);
                Some(ParsedRequest {
                    request,
                    route: self.route,
                })
            }
            _ => None,
        }
    }

    /// Returns all bytes. Uses the headers for the fields of a head that was not found yet.
    pub(crate) fn all<'b>(
        &'b self,
        headers: &'b mut [HeaderSpan; FIELD_LIMIT],
    ) -> ReceivedRequest<'b>
        ensures { result.bytes.now ≡ self.now.bytes.items }
    {
        match self.found {
            HeadFound::Unfinished => ReceivedRequest::parse(&self.bytes, headers),
            _ => self.front(self.bytes.len()),
        }
    }

    /// Returns the first bytes with what was found.
    pub(crate) fn front(&self, size: usize) -> ReceivedRequest<'_>
        requires within { size ≤ vec_len self.now.bytes }
        requires found { covers self.now size ≡ true }
        ensures { result.bytes.now ≡ take size self.now.bytes.items }
    {
        ReceivedRequest::new(&self.bytes[..size], self.parsed())
    }
}

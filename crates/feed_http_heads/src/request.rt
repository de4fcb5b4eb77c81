//! A request's head, in the buffer into which it was read.
ghost use Rattle.std.specs.Prelude.{◌≡◌, take};
ghost use Rattle.httparse.specs.Grammar.{RequestHead};
ghost use Rattle.httparse.specs.Spans.{IsRequestWithin, IsRequestAt};
ghost use Rattle.feed_http_heads.specs.Fields.{AreWithin, AreFieldsOf};
ghost use Rattle.feed_http_heads.specs.Limits.{head_limit};
ghost use Rattle.feed_http_heads.specs.Requests.{lacks_host, is_get, is_head, IsInBuffer, HasHead};

use crate::fields::Fields;
use crate::limits::HEAD_LIMIT;
use httparse::spans::{HeaderSpan, RequestSpans};

/// A request's head, in the buffer into which it was read.
#[derive(Clone, Copy)]
pub struct Request<'b> {
    pub buffer: &'b [u8],
    pub headers: &'b [HeaderSpan],
    pub spans: RequestSpans,
}

impl<'b> Request<'b> {
    /// Returns the request whose head `find_head` found at the front of the bytes.
    pub fn new(bytes: &'b [u8], headers: &'b [HeaderSpan], spans: RequestSpans) -> Request<'b>
        requires { IsRequestWithin (take head_limit bytes.now) headers.now spans }
        ensures within { IsInBuffer result }
        ensures head { (head : RequestHead) → IsRequestAt (take head_limit bytes.now) headers.now spans head
            → HasHead result head }
    {
        Request {
            buffer: &bytes[..bytes.len().min(HEAD_LIMIT)],
            headers,
            spans,
        }
    }

    /// Returns the fields of the head.
    pub fn fields(&self) -> Fields<'_>
        requires { IsInBuffer self.now }
        ensures within { AreWithin result }
        ensures fields { (head : RequestHead) → HasHead self.now head → AreFieldsOf result head.fields }
    {
        Fields {
            buffer: self.buffer,
            headers: &self.headers[..self.spans.headers],
        }
    }

    /// Returns the method (RFC 9110, section 9.1). It is case-sensitive.
    pub fn method(&self) -> &[u8]
        requires { IsInBuffer self.now }
        ensures { (head : RequestHead) → HasHead self.now head → result.now ≡ head.method }
    {
        self.spans.method.of(self.buffer)
    }

    /// Returns the target (RFC 9112, section 3.2), which is not decoded.
    pub fn target(&self) -> &'b [u8]
        requires { IsInBuffer self.now }
        ensures { (head : RequestHead) → HasHead self.now head → result.now ≡ head.target }
    {
        self.spans.path.of(self.buffer)
    }

    /// Returns whether a request of HTTP/1.1 does not have exactly one Host field (RFC 9112, section 3.2).
    pub fn lacks_host(&self) -> bool
        requires { IsInBuffer self.now }
        ensures { (head : RequestHead) → HasHead self.now head → result ≡ lacks_host head }
    {
        self.spans.version == 1 && self.fields().sole_value(b"host").is_none()
    }

    /// Returns whether the method is HEAD (RFC 9110, section 9.3.2).
    pub fn is_head(&self) -> bool
        requires { IsInBuffer self.now }
        ensures { (head : RequestHead) → HasHead self.now head → result ≡ is_head head }
    {
        self.spans.method.of(self.buffer) == b"HEAD".as_slice()
    }

    /// Returns whether the method is GET (RFC 9110, section 9.3.1).
    pub fn is_get(&self) -> bool
        requires { IsInBuffer self.now }
        ensures { (head : RequestHead) → HasHead self.now head → result ≡ is_get head }
    {
        self.spans.method.of(self.buffer) == b"GET".as_slice()
    }
}

//! The trait `Respond`, which makes the responses of a node, and the response if there can be no other.
ghost use Rattle.std.specs.Prelude.{◌≡◌, IfOk};
ghost use Rattle.node_connection.specs.Events.{continue_text};
ghost use Rattle.node_connection.specs.Responses.{unavailable};

use node_request::{ParsedRequest, ReceivedRequest};
use std::alloc::{AllocError, Global};

/// The response if the responder makes none (RFC 9110, section 15.6.4).
pub const UNAVAILABLE: &[u8] =
    b"HTTP/1.1 503 Service Unavailable\r\nContent-Type: text/plain; charset=utf-8\r\n\
    Content-Length: 12\r\nRetry-After: 1\r\nCache-Control: no-cache\r\nVary: Accept\r\n\
    X-Content-Type-Options: nosniff\r\nReferrer-Policy: no-referrer\r\nAccess-Control-Allow-Origin: *\r\n\
    Connection: close\r\n\r\nUnavailable\n";

/// The interim response to a client that waits before it sends the body of a request (RFC 9110, section 15.2.1).
pub const CONTINUE: &[u8] = b"HTTP/1.1 100 Continue\r\n\r\n";

/// The most bytes of the body of a request that is received.
pub const BODY_LIMIT: usize = 8_192;

/// Why a responder makes no response.
#[derive(Clone, Copy)]
pub enum RespondFault {
    /// Memory ran out.
    Memory,
    /// The node starts, and does not serve yet. The client may send its request again.
    Busy,
}

impl From<AllocError> for RespondFault {
    fn from(_error: AllocError) -> RespondFault {
        RespondFault::Memory
    }
}

/// The facts about a response that a log records.
#[derive(Clone, Copy)]
pub struct ResponseSummary {
    /// The status code.
    pub status: u16,
    /// The number of bytes of the body: 0 in a response to HEAD.
    pub body_len: usize,
    /// Whether the bytes are only the head of a response whose body follows later, line by line.
    pub is_streamed: bool,
    /// Why the response is `UNAVAILABLE`, or `None` if the responder made it.
    pub fault: Option<RespondFault>,
    /// The place of the site that responded among those of the node, or none.
    pub site: Option<usize>,
}

/// A response: its bytes, and the facts about it that a log records.
#[derive(Drop)]
pub struct LoggedResponse {
    pub bytes: Vec<u8>,
    pub summary: ResponseSummary,
}

impl LoggedResponse {
    /// Returns a complete response of no site, with this status code and this number of bytes in its body.
    pub fn new(bytes: Vec<u8>, status: u16, body_len: usize) -> LoggedResponse
        ensures { result.bytes ≡ bytes }
    {
        LoggedResponse {
            bytes,
            summary: ResponseSummary {
                status,
                body_len,
                is_streamed: false,
                fault: None,
                site: None,
            },
        }
    }
}

/// A request, as a response is made to it.
#[derive(Clone, Copy)]
pub struct IncomingRequest<'a> {
    /// The head of a request, or bytes that are not one, whatever follows.
    pub received: ReceivedRequest<'a>,
    /// The whole body after the head, or nothing if none was received.
    pub body: &'a [u8],
    /// Whether the connection persists after the response.
    pub persists: bool,
}

/// Makes the responses of a node.
pub trait Respond {
    ghost use Rattle.std.specs.Prelude.{◌≡◌, ◌≤◌, List, ℕ, Bool, true, Option, Some, None, IfOk, IfErr};
    ghost use Rattle.httparse.specs.Grammar.{RequestHead};
    ghost use Rattle.feed_http_heads.specs.Options.{SaysWhetherItKeeps};
    ghost use Rattle.feed_http_heads.specs.Requests.{HasHead};
    ghost use Rattle.node_connection.specs.Requests.{IsPersistent};

    /// The length of the body that the responder wants after this head, or 0.
    ghost wanted: { Self → RequestHead → ℕ };

    /// A head of a request, or bytes that are not one, and this body have this response if the connection persists
    /// after it, or does not. Without a response the responder made none.
    ghost responses: { Self → List ℕ → List ℕ → Bool → Option (List ℕ) → Type 0 };

    /// Returns how many bytes of a body are received after the head of a request: at most 8,192, and 0 for none. They
    /// are received only if the head states this length.
    fn body_len(&self, parsed: &ParsedRequest<'_>) -> usize
        ensures wanted { (head : RequestHead) → HasHead parsed.now.request head → result ≡ wanted self.now head }
        ensures limit { result ≤ BODY_LIMIT };

    /// Returns the response to a request. The response says `Connection: close` exactly if the connection does not
    /// persist (RFC 9112, section 9.6).
    fn respond(
        &self,
        alloc: Global,
        request: &IncomingRequest<'_>,
    ) -> Result<LoggedResponse, RespondFault>
        requires allowed { request.now.persists ≡ true
            → IsPersistent (wanted self.now) request.now.received.bytes.now request.now.body.now }
        ensures reply { IfOk result (λ reply. responses self.now request.now.received.bytes.now
            request.now.body.now request.now.persists (Some reply.bytes.items)) }
        ensures says { IfOk result (λ reply. SaysWhetherItKeeps request.now.persists reply.bytes.items) }
        ensures none { IfErr result (λ fault. responses self.now request.now.received.bytes.now
            request.now.body.now request.now.persists None) };
}

/// Returns the interim response.
pub(crate) fn interim_response(alloc: Global) -> Result<Vec<u8>, AllocError>
    ensures { IfOk result (λ text. text.items ≡ continue_text) }
{
    Vec::from_slice(alloc, CONTINUE)
}

/// Returns the response `UNAVAILABLE`.
pub(crate) fn unavailable(alloc: Global, fault: RespondFault) -> Result<LoggedResponse, AllocError>
    ensures { IfOk result (λ reply. reply.bytes.items ≡ unavailable) }
{
    Ok(LoggedResponse {
        bytes: Vec::from_slice(alloc, UNAVAILABLE)?,
        summary: ResponseSummary {
            status: 503,
            body_len: 12,
            is_streamed: false,
            fault: Some(fault),
            site: None,
        },
    })
}

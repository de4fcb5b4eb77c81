//! The state machine of one connection of a node, without its socket.
ghost use Rattle.std.specs.Prelude.{◌≡◌, ◌≢◌, ◌&&◌, ◌==◌, ◌+◌, ◌<◌, ◌≤◌};
ghost use Rattle.std.specs.Prelude.{not, true, false};
ghost use Rattle.std.specs.Prelude.{List, ◌∷◌, [], length, take, vec_len, vec_capacity};
ghost use Rattle.node_connection.specs.Events.{Event, Received, Sent, Resumed, sent_len};
ghost use Rattle.node_connection.specs.HeldBytes.{covers};
ghost use Rattle.node_connection.specs.declared.phase.ConnectionPhase.TheVariants.{Sending, Aborted};

use crate::head_state::{AfterResponse, FoundRequest, HeadState, after_response, head_state};
use crate::held_bytes::HeldBytes;
use crate::phase::{ConnectionPhase, TimeLimits, Wants};
use crate::respond::{
    BODY_LIMIT, IncomingRequest, LoggedResponse, Respond, RespondFault, ResponseSummary,
    interim_response, unavailable,
};
use feed_http_heads::{FIELD_LIMIT, HEAD_LIMIT};
use httparse::spans::HeaderSpan;
use node_request::ReceivedRequest;
use std::alloc::Global;

mod clock;
mod closing;

/// The number of bytes of a response that a peer must accept within the time in which it has to send its head.
pub const MIN_PROGRESS: usize = 16_384;

/// The most bytes of a request that are held: its head and its body.
pub(crate) const REQUEST_LIMIT: usize = HEAD_LIMIT + BODY_LIMIT;

/// A connection that receives requests, one after the other, and sends the response to each.
#[derive(Drop)]
pub struct Connection {
    phase: ConnectionPhase,
    /// The bytes after the requests that were answered before. They begin with the request whose response is sent.
    received: HeldBytes,
    /// The length of that request, or 0.
    request_len: usize,
    reply: Vec<u8>,
    sent: usize,
    after: AfterResponse,
    /// The bytes sent since the timer was last restarted.
    sent_since: usize,
    /// The milliseconds since then.
    elapsed: u64,
    limits: TimeLimits,
    summary: Option<ResponseSummary>,
    /// The bytes of the current response that were sent, also after it was freed.
    sent_len: usize,
    /// Whether the interim response to the request at the front was made.
    is_continued: bool,
    ghost bounded: { vec_len received.bytes ≤ 16384 },
    ghost inside: { request_len ≤ vec_len received.bytes },
    ghost parsed: { request_len ≢ 0 → covers received request_len ≡ true },
    ghost within: { sent ≤ vec_len reply },
    ghost slow: { sent_since < 16384 },
    ghost freed: { phase ≢ Sending → phase ≢ Aborted → vec_capacity reply ≡ 0 },
}

impl Connection {
    ghost use Rattle.node_connection.specs.Requests.{IsPersistent};
    ghost use Rattle.node_connection.specs.Responses.{IsFoundIn};
    ghost use Rattle.node_connection.specs.States.{HasState, HasParsed, HasBegunResponse, HasRefused, HasResponded};
    ghost use Rattle.node_connection.specs.States.{HasBegunWait, body_after};
    ghost use Rattle.node_connection.specs.States.{is_idle_in, is_lingering_in, is_response_sent_in};
    ghost use Rattle.node_connection.specs.States.{pending_of, phase_after, request_of, rest_of, room_of};
    ghost use Rattle.node_connection.specs.States.{wants_in};
    ghost use Rattle.node_connection.specs.States.{allocated_bytes};

    /// Returns a connection with these time limits.
    pub fn new(alloc: Global, limits: TimeLimits) -> Connection
        ensures state { HasState result [] }
        ensures limits { result.limits ≡ limits }
        ensures allocated { allocated_bytes result ≡ 0 }
    {
        Connection {
            phase: ConnectionPhase::Receiving,
            received: HeldBytes::new(alloc),
            request_len: 0,
            reply: Vec::new(alloc),
            sent: 0,
            after: AfterResponse::Persist,
            sent_since: 0,
            elapsed: 0,
            limits,
            summary: None,
            sent_len: 0,
            is_continued: false,
        }
    }

    /// Returns what the connection waits for.
    pub fn wants(&self) -> Wants
        ensures { result ≡ wants_in self.now.phase }
    {
        match self.phase {
            ConnectionPhase::Idle => Wants::Bytes,
            ConnectionPhase::Receiving => Wants::Bytes,
            ConnectionPhase::Parsing => Wants::Parse,
            ConnectionPhase::Sending => Wants::Room,
            ConnectionPhase::Answered => Wants::Next,
            ConnectionPhase::Lingering => Wants::Bytes,
            ConnectionPhase::Complete => Wants::Close,
            ConnectionPhase::Aborted => Wants::Close,
        }
    }

    /// Returns whether the connection waits for the first byte of another request.
    pub fn is_idle(&self) -> bool
        ensures { result ≡ is_idle_in self.now.phase }
    {
        match self.phase {
            ConnectionPhase::Idle => true,
            _ => false,
        }
    }

    /// Returns whether the last response was sent and the peer may send more. If so, the caller shuts down the sending
    /// side.
    pub fn is_lingering(&self) -> bool
        ensures { result ≡ is_lingering_in self.now.phase }
    {
        match self.phase {
            ConnectionPhase::Lingering => true,
            _ => false,
        }
    }

    /// Returns whether the whole response was sent.
    pub fn is_response_sent(&self) -> bool
        ensures { result ≡ is_response_sent_in self.now.phase }
    {
        match self.phase {
            ConnectionPhase::Answered => true,
            ConnectionPhase::Lingering => true,
            ConnectionPhase::Complete => true,
            _ => false,
        }
    }

    /// Returns how many bytes may be received at once.
    pub fn room(&self) -> usize
        ensures { result ≡ room_of self.now }
    {
        match self.phase {
            ConnectionPhase::Idle => REQUEST_LIMIT - self.received.bytes.len(),
            ConnectionPhase::Receiving => REQUEST_LIMIT - self.received.bytes.len(),
            ConnectionPhase::Lingering => REQUEST_LIMIT,
            _ => 0,
        }
    }

    /// Adds received bytes to the bytes held, and drops them once no other request is answered.
    pub fn receive(&mut self, bytes: &[u8])
        requires waiting { wants_in self.old.phase ≡ Wants.Bytes }
        requires room { length bytes.now ≤ room_of self.old }
        ensures state { (history : List Event) → HasState self.old history
            → HasState self.new (Received bytes.now ∷ history) }
        ensures limits { self.new.limits ≡ self.old.limits }
    {
        if self.is_lingering() {
            return;
        }
        if self.is_idle() {
            self.elapsed = 0;
        }
        self.phase = match self.received.append(bytes) {
            Ok(()) => ConnectionPhase::Parsing,
            Err(_) => ConnectionPhase::Aborted,
        };
    }

    /// Parses the bytes held, and begins the response to a request at their front. Returns whether there is one.
    pub fn parse_request<R: Respond>(&mut self, alloc: Global, responder: &R) -> bool
        requires { self.old.phase ≡ ConnectionPhase.Parsing }
        ensures state { (history : List Event) → HasState self.old history
            → HasParsed (R.wanted responder.now, R.responses responder.now) result self.new history }
        ensures lingers { self.new.phase ≢ ConnectionPhase.Complete }
        ensures limits { self.new.limits ≡ self.old.limits }
    {
        match head_state(&mut self.received, responder) {
            HeadState::Incomplete => {
                self.wait();
                false
            }
            HeadState::Whole(found) => self.take_request(alloc, responder, found),
            HeadState::Invalid => {
                let held = self.received.bytes.len();
                self.respond(alloc, responder, held, 0, false);
                true
            }
        }
    }

    // Begins the response to the request at the front, or waits for its body. Returns whether the request is whole.
    fn take_request<R: Respond>(
        &mut self,
        alloc: Global,
        responder: &R,
        found: FoundRequest,
    ) -> bool
        requires parsing { self.old.phase ≡ ConnectionPhase.Parsing }
        requires found { IsFoundIn (R.wanted responder.now) self.old.received.bytes.items found }
        requires covers { covers self.old.received found.head_len ≡ true }
        ensures state { (history : List Event) → HasState self.old history
            → HasParsed (R.wanted responder.now, R.responses responder.now) result self.new history }
        ensures lingers { self.new.phase ≢ ConnectionPhase.Complete }
        ensures limits { self.new.limits ≡ self.old.limits }
    {
        let after_head = self.received.bytes.len() - found.head_len;
        if after_head < found.body_len {
            self.await_body(alloc, found.expects_continue);
            return false;
        }
        self.respond(
            alloc,
            responder,
            found.head_len,
            found.body_len,
            found.persists,
        );
        true
    }

    // Waits for the body of the request at the front, after the interim response if the client expects it.
    fn await_body(&mut self, alloc: Global, expects_continue: bool)
        requires { self.old.phase ≡ ConnectionPhase.Parsing }
        ensures waits { HasBegunWait (expects_continue && not self.old.is_continued) self.old self.new }
        ensures limits { self.new.limits ≡ self.old.limits }
        ensures lingers { self.new.phase ≢ ConnectionPhase.Complete }
    {
        if expects_continue && !self.is_continued {
            self.begin_interim(alloc);
        } else {
            self.wait();
        }
    }

    // Waits for the rest of the request at the front.
    fn wait(&mut self)
        requires { self.old.phase ≡ ConnectionPhase.Parsing }
        ensures waits { HasBegunWait false self.old self.new }
        ensures limits { self.new.limits ≡ self.old.limits }
        ensures lingers { self.new.phase ≢ ConnectionPhase.Complete }
    {
        self.phase = ConnectionPhase::Receiving;
    }

    fn begin_interim(&mut self, alloc: Global)
        ensures waits { HasBegunWait true self.old self.new }
        ensures limits { self.new.limits ≡ self.old.limits }
        ensures lingers { self.new.phase ≢ ConnectionPhase.Complete }
    {
        match interim_response(alloc) {
            Ok(text) => {
                self.reply = text;
                self.sent = 0;
                self.sent_len = 0;
                self.after = AfterResponse::Receive;
                self.is_continued = true;
                self.phase = ConnectionPhase::Sending;
            }
            Err(_) => self.phase = ConnectionPhase::Aborted,
        }
    }

    fn respond<R: Respond>(
        &mut self,
        alloc: Global,
        responder: &R,
        head_len: usize,
        body_len: usize,
        persists: bool,
    )
        requires within { head_len + body_len ≤ vec_len self.old.received.bytes }
        requires covers { covers self.old.received head_len ≡ true }
        requires allowed { persists ≡ true
            → IsPersistent (R.wanted responder.now) (take head_len self.old.received.bytes.items)
            (body_after head_len body_len self.old.received.bytes.items) }
        ensures responded { HasResponded (R.wanted responder.now, R.responses responder.now)
            head_len body_len persists self.old self.new }
        ensures limits { self.new.limits ≡ self.old.limits }
    {
        let size = head_len + body_len;
        let request = IncomingRequest {
            received: self.received.front(head_len),
            body: &self.received.bytes[head_len..size],
            persists,
        };
        match responder.respond(alloc, &request) {
            Ok(reply) => self.begin_response(alloc, reply, size, after_response(persists)),
            Err(fault) => self.refuse(alloc, size, fault),
        }
    }

    fn refuse(&mut self, alloc: Global, size: usize, fault: RespondFault)
        requires within { size ≤ vec_len self.old.received.bytes }
        requires covers { covers self.old.received size ≡ true }
        ensures refused { HasRefused size self.old self.new }
        ensures limits { self.new.limits ≡ self.old.limits }
    {
        match unavailable(alloc, fault) {
            Ok(reply) => self.begin_response(alloc, reply, size, AfterResponse::Linger),
            Err(_) => self.phase = ConnectionPhase::Aborted,
        }
    }

    fn begin_response(
        &mut self,
        alloc: Global,
        reply: LoggedResponse,
        size: usize,
        after: AfterResponse,
    )
        requires within { size ≤ vec_len self.old.received.bytes }
        requires covers { covers self.old.received size ≡ true }
        ensures begun { HasBegunResponse reply.bytes.items size after self.old self.new }
        ensures limits { self.new.limits ≡ self.old.limits }
    {
        self.summary = Some(reply.summary);
        self.reply = freed_if_empty(alloc, reply.bytes);
        self.sent = 0;
        self.sent_len = 0;
        self.request_len = size;
        self.after = after;
        self.sent_since = 0;
        self.elapsed = 0;
        self.phase = if self.reply.is_empty() {
            self.phase_after()
        } else {
            ConnectionPhase::Sending
        };
    }

    // The phase after the whole response was sent.
    fn phase_after(&self) -> ConnectionPhase
        ensures { result ≡ phase_after self.now.after }
    {
        match self.after {
            AfterResponse::Persist => ConnectionPhase::Answered,
            AfterResponse::Linger => ConnectionPhase::Lingering,
            AfterResponse::Receive => ConnectionPhase::Parsing,
        }
    }

    /// Returns the request whose response is sent: its head and its body, or bytes that are not a head. Without a
    /// response it is empty.
    pub fn request(&self) -> ReceivedRequest<'_>
        ensures { result.bytes.now ≡ request_of self.now }
    {
        if self.request_len == 0 {
            ReceivedRequest::new(b"", None)
        } else {
            self.received.front(self.request_len)
        }
    }

    /// Returns the status of the response and the length of its body, from when it is made until `resume`.
    pub fn summary(&self) -> Option<ResponseSummary>
        ensures { result ≡ self.now.summary }
    {
        self.summary
    }

    /// Returns how many bytes of the response the peer accepted, from when it is made until `resume`, and otherwise 0.
    pub fn sent_len(&self) -> usize
        ensures { (history : List Event) → HasState self.now history → result ≡ sent_len history }
    {
        self.sent_len
    }

    /// Returns the part of the response that remains to be sent.
    pub fn pending_response(&self) -> &[u8]
        ensures { result.now ≡ pending_of self.now }
    {
        match self.phase {
            ConnectionPhase::Sending => &self.reply[self.sent..],
            _ => b"",
        }
    }

    /// Records that the peer accepted this many bytes of `pending_response`. Frees the response once it is sent.
    pub fn mark_sent(&mut self, alloc: Global, count: usize)
        requires some { 0 < count }
        requires within { count ≤ length (pending_of self.old) }
        ensures state { (history : List Event) → HasState self.old history
            → HasState self.new (Sent (take count (pending_of self.old)) ∷ history) }
        ensures lingers { self.new.phase ≢ ConnectionPhase.Complete }
        ensures limits { self.new.limits ≡ self.old.limits }
    {
        if count >= MIN_PROGRESS - self.sent_since {
            self.sent_since = 0;
            self.elapsed = 0;
        } else {
            self.sent_since += count;
        }
        self.sent_len = self.sent + count;
        if count == self.reply.len() - self.sent {
            self.sent = 0;
            self.reply = Vec::new(alloc);
            self.phase = self.phase_after();
        } else {
            self.sent += count;
        }
    }

    /// Turns to the next request, once the response to the last one was sent and the connection persists. Drops that
    /// request.
    pub fn resume(&mut self)
        requires { self.old.phase ≡ ConnectionPhase.Answered }
        ensures state { (history : List Event) → HasState self.old history
            → HasState self.new (Resumed (length (rest_of self.old) == 0) ∷ history) }
        ensures limits { self.new.limits ≡ self.old.limits }
        ensures allocated { allocated_bytes self.new ≡ allocated_bytes self.old }
    {
        self.received.drop_front(self.request_len);
        self.request_len = 0;
        self.summary = None;
        self.is_continued = false;
        self.sent_len = 0;
        self.sent_since = 0;
        self.elapsed = 0;
        self.phase = if self.received.bytes.is_empty() {
            ConnectionPhase::Idle
        } else {
            ConnectionPhase::Parsing
        };
    }

    /// Ends the connection, because the peer closed its side or a read or write failed.
    pub fn end(&mut self)
        ensures state { (history : List Event) → HasState self.old history
            → HasState self.new history }
        ensures over { wants_in self.new.phase ≡ Wants.Close }
        ensures limits { self.new.limits ≡ self.old.limits }
        ensures allocated { allocated_bytes self.new ≡ allocated_bytes self.old }
    {
        self.phase = match self.phase {
            ConnectionPhase::Lingering => ConnectionPhase::Complete,
            ConnectionPhase::Complete => ConnectionPhase::Complete,
            _ => ConnectionPhase::Aborted,
        };
    }
}

impl Connection {
    ghost use Rattle.std.specs.Prelude.{◌-◌};

    /// Returns the bytes that follow the requests that were answered before: the request whose response is sent, or
    /// what arrived of the next one, also once the connection is over. Uses the headers for the fields of a head that
    /// was not parsed.
    pub fn held_request<'b>(
        &'b self,
        headers: &'b mut [HeaderSpan; FIELD_LIMIT],
    ) -> ReceivedRequest<'b>
        ensures { result.bytes.now ≡ self.now.received.bytes.items }
    {
        self.received.all(headers)
    }

    /// Returns how many bytes of the response the peer has not accepted, also once the connection is over.
    pub fn unsent_len(&self) -> usize
        ensures { result ≡ vec_len self.now.reply - self.now.sent }
    {
        self.reply.len() - self.sent
    }
}

// Returns these bytes. If there are none, frees what is allocated for them.
fn freed_if_empty(alloc: Global, bytes: Vec<u8>) -> Vec<u8>
    ensures items { result.items ≡ bytes.items }
    ensures freed { length bytes.items ≡ 0 → vec_capacity result ≡ 0 }
{
    if bytes.is_empty() {
        Vec::new(alloc)
    } else {
        bytes
    }
}

//! A connection with its stream and its times.
ghost use Rattle.std.specs.Prelude.{◌≡◌, ◌≢◌, ◌≤◌, ◌<◌, ℕ, List, [], true, false, IfSome, is_some};
ghost use Rattle.node_connection.specs.Events.{Event};
ghost use Rattle.node_connection.specs.States.{allocated_bytes, HasState, is_response_sent_in, request_of, wants_in};
ghost use Rattle.node_connection.specs.States.{closing_rank};
ghost use Rattle.node_connection.specs.declared.phase.Shortage.TheVariants.{Places};
ghost use Rattle.node_turns.specs.Addresses.{slot_limit};
ghost use Rattle.node_table.specs.Connections.{HasServed, IsConnection};
ghost use Rattle.node_table.specs.Logs.{HasRecorded, Responded};

use crate::log::{CloseCause, Log};
use feed_http_heads::FIELD_LIMIT;
use httparse::spans::EMPTY_HEADER_SPAN;
use node_connection::{Connection, Progress, Respond, Share, TimeLimits, Wants};
use node_monitoring::client_addr;
use node_request::ReceivedRequest;
use node_turns::slot_of;
use std::alloc::Global;
use std::net::SocketAddr;

/// A time that no connection reaches, in milliseconds.
const ELAPSED_END: u128 = 18_446_744_073_709_551_616;

/// The work that remains for a connection after a turn.
#[derive(Clone, Copy, Debug, PartialEq, Eq)]
pub enum Outcome {
    /// It waits for its stream.
    Waits,
    /// It has more to do in the next turn.
    Ready,
    /// It turned to its next request, so that it may be served again in this turn.
    Resumed,
    /// The head of its streamed response was sent, so that the body may follow.
    Streams,
    /// It is over.
    Over,
}

/// A connection that was accepted.
#[derive(Drop)]
pub struct NewConnection<T> {
    pub stream: T,
    /// The address of its peer.
    pub addr: SocketAddr,
    pub limits: TimeLimits,
    /// When it was accepted.
    pub now: u64,
}

/// A connection with its stream. Times are in microseconds since a moment that the caller chooses.
#[derive(Drop)]
pub(crate) struct Peer<T> {
    pub(crate) stream: T,
    pub(crate) addr: SocketAddr,
    pub(crate) connection: Connection,
    /// The slot of the address of its client, in whose queues it waits.
    pub(crate) slot: usize,
    /// The time up to which the connection's clock was advanced.
    clock: u64,
    /// When the response that is under way began.
    began: Option<u64>,
    /// The microseconds that the last response took that was sent whole.
    micros: u64,
    /// Whether the sending side of the stream was shut down.
    is_shut_down: bool,
    ghost stateful: { IsConnection connection },
    ghost placed: { slot < slot_limit },
}

impl<T: Stream> Peer<T> {
    ghost use Rattle.std.specs.Net.Socket.{socket_ip};
    ghost use Rattle.node_turns.specs.Addresses.{IsSlotOf};
    ghost use Rattle.node_table.specs.Peers.{begins_stream, cause_of, is_streamed, micros_of};
    ghost use Rattle.node_table.specs.Peers.{HasElapsed, HasResumed, IsClientSlot};
    ghost use Rattle.node_table.specs.Peers.{is_behind, HasReceived, IsFollowed, IsLate};
    ghost use Rattle.node_table.specs.Places.{closing_priority, elapsed_end};

    /// Returns a connection that was accepted now.
    pub(crate) fn new(alloc: Global, accepted: NewConnection<T>) -> Peer<T>
        ensures addr { result.addr ≡ accepted.addr }
        ensures stream { result.stream ≡ accepted.stream }
        ensures state { HasState result.connection [] }
        ensures held { allocated_bytes result.connection ≡ 0 }
        ensures slot { IsSlotOf (socket_ip accepted.addr) result.slot }
    {
        let NewConnection {
            stream,
            addr,
            limits,
            now,
        } = accepted;
        Peer {
            stream,
            addr,
            connection: Connection::new(alloc, limits),
            slot: slot_of(addr.ip()),
            clock: now,
            began: None,
            micros: 0,
            is_shut_down: false,
        }
    }

    /// Returns the bytes that are allocated for its response.
    pub(crate) fn held(&self) -> usize
        ensures held { result ≡ allocated_bytes self.now.connection }
        ensures small { result < 9223372036854775808 }
    {
        self.connection.allocated_bytes()
    }

    /// Returns the request whose response is streamed, from when the response is made.
    pub(crate) fn streamed_request(&self) -> Option<ReceivedRequest<'_>>
        ensures request { IfSome result (λ received. received.bytes.now ≡ request_of self.now.connection) }
        ensures streamed { is_some result ≡ is_streamed self.now.connection }
    {
        if self.is_streamed() {
            Some(self.connection.request())
        } else {
            None
        }
    }

    fn is_streamed(&self) -> bool
        ensures { result ≡ is_streamed self.now.connection }
    {
        match self.connection.summary() {
            Some(summary) => summary.is_streamed,
            None => false,
        }
    }

    /// Returns the microseconds that its response took up to now, or its last one if that was sent whole.
    pub(crate) fn micros(&self, now: u64) -> u64
        ensures { result ≡ micros_of self.now now }
    {
        match self.began {
            Some(began) => now.saturating_sub(began),
            None => self.micros,
        }
    }

    /// Returns whether the connection has more to do than to receive its next request: bytes that it did not parse, a
    /// part of a response to send, or bytes to drop.
    pub(crate) fn is_behind(&self) -> bool
        ensures { result ≡ is_behind self.now.connection }
    {
        match self.connection.wants() {
            Wants::Bytes => self.connection.is_lingering(),
            _ => true,
        }
    }

    // Returns the slot of the client whose request the connection holds, if its peer is a proxy.
    fn client_slot(&self) -> usize
        ensures slot { IsClientSlot self.now result }
        ensures below { result < slot_limit }
    {
        let proxy = self.addr.ip();
        let mut headers = [EMPTY_HEADER_SPAN; FIELD_LIMIT];
        match self.connection.held_request(&mut headers).parsed() {
            Some(parsed) => slot_of(client_addr(&parsed.request.fields(), proxy)),
            None => slot_of(proxy),
        }
    }

    /// Has the connection wait in the queues of the client whose request it holds. Returns the slot of that.
    pub(crate) fn follow_client(&mut self) -> usize
        ensures slot { IsClientSlot self.old result }
        ensures placed { self.new.slot ≡ result }
        ensures below { result < slot_limit }
        ensures addr { self.new.addr ≡ self.old.addr }
        ensures connection { self.new.connection ≡ self.old.connection }
    {
        self.slot = self.client_slot();
        self.slot
    }

    /// Returns whether the connection is over.
    pub(crate) fn is_over(&self) -> bool
        ensures over { result ≡ true → wants_in self.now.connection.phase ≡ Wants.Close }
        ensures opened { result ≡ false → wants_in self.now.connection.phase ≢ Wants.Close }
    {
        self.connection.wants() == Wants::Close
    }

    // Returns the rank of the connection among those that are closed for a place.
    fn closing_rank(&self) -> u128
        ensures { result ≡ closing_rank Places self.now.connection }
    {
        match self.connection.wants() {
            Wants::Room => 1,
            Wants::Parse => 0,
            Wants::Bytes => if self.connection.is_idle() || self.connection.is_lingering() {
                2
            } else {
                0
            },
            _ => 2,
        }
    }

    /// Returns what the connection has in the order of closing: the one with the most is closed first for a place.
    pub(crate) fn closing_priority(&self) -> u128
        ensures priority { result ≡ closing_priority self.now.connection }
        ensures elapsed { self.now.connection.elapsed < elapsed_end }
    {
        self.closing_rank() * ELAPSED_END + self.connection.elapsed() as u128
    }

    /// Returns why the connection is closed, if this is why unless its last response was sent whole.
    pub(crate) fn close_cause(&self, cause: CloseCause) -> CloseCause
        ensures { result ≡ cause_of self.now cause }
    {
        if self.connection.is_response_sent() {
            CloseCause::Complete
        } else {
            cause
        }
    }

    /// Advances the connection's clock. Returns whether its time limit passed by that.
    pub(crate) fn advance_clock(&mut self, now: u64) -> bool
        ensures addr { self.new.addr ≡ self.old.addr }
        ensures held { allocated_bytes self.new.connection ≡ allocated_bytes self.old.connection }
        ensures late { result ≡ true → IsLate self.old now }
        ensures in_time { result ≡ false → ¬ (IsLate self.old now) }
        ensures elapsed { HasElapsed now self.old self.new }
    {
        if self.is_over() {
            return false;
        }
        let passed = now.saturating_sub(self.clock) / 1_000;
        self.clock = self.clock.max(now);
        self.connection.advance_clock(passed);
        self.is_over()
    }

    fn begins_stream(&self) -> bool
        ensures { result ≡ begins_stream self.now.connection }
    {
        self.is_streamed() && self.connection.is_response_sent()
    }

    // Turns to the next request, once a response was sent and the connection persists. Records the response.
    fn resume<L: Log>(&mut self, now: u64, log: &mut L) -> Outcome
        requires { wants_in self.old.connection.phase ≡ Wants.Next }
        ensures addr { self.new.addr ≡ self.old.addr }
        ensures held { allocated_bytes self.new.connection ≡ allocated_bytes self.old.connection }
        ensures recorded { L.records log.old (Responded self.old.addr self.old.connection self.old.micros) log.new }
        ensures resumed { HasResumed self.old.connection self.new.connection }
        ensures outcome { result ≡ Outcome.Resumed }
    {
        log.on_response(self.addr, &self.connection, self.micros);
        self.connection.resume();
        self.clock = now;
        Outcome::Resumed
    }

    // Takes the time of the response once it was sent whole.
    fn end_timing(&mut self, now: u64)
        ensures addr { self.new.addr ≡ self.old.addr }
        ensures connection { self.new.connection ≡ self.old.connection }
        ensures micros { is_response_sent_in self.old.connection.phase ≡ true
            → self.new.micros ≡ micros_of self.old now }
    {
        if let Some(began) = self.began {
            if self.connection.is_response_sent() {
                self.micros = now.saturating_sub(began);
                self.began = None;
            }
        }
    }

    // Shuts down the sending side once the last response was sent.
    fn linger(&mut self)
        ensures addr { self.new.addr ≡ self.old.addr }
        ensures connection { self.new.connection ≡ self.old.connection }
        ensures micros { self.new.micros ≡ self.old.micros }
    {
        if self.connection.is_lingering() && !self.is_shut_down {
            self.is_shut_down = true;
            self.stream.shut_down();
        }
    }

    /// Does what follows `exchange`, by how that ended. A response that was sent ended now.
    pub(crate) fn settle<L: Log>(&mut self, progress: Progress, now: u64, log: &mut L) -> Outcome
        ensures addr { self.new.addr ≡ self.old.addr }
        ensures held { allocated_bytes self.new.connection ≡ allocated_bytes self.old.connection }
        ensures recorded { HasRecorded L.records CloseCause.PeerClosed 0 log.old log.new }
        ensures followed { IsFollowed L.records result progress now self.old self.new log.old log.new }
    {
        self.end_timing(now);
        if self.begins_stream() {
            return Outcome::Streams;
        }
        self.linger();
        match self.connection.wants() {
            Wants::Next => self.resume(now, log),
            Wants::Close => Outcome::Over,
            _ if progress == Progress::Blocked => Outcome::Waits,
            _ => Outcome::Ready,
        }
    }

    // Notes when a response began, and restarts the clock if the connection's timer was restarted.
    fn note_times(&mut self, has_replied: bool, elapsed: u64, now: u64)
        ensures addr { self.new.addr ≡ self.old.addr }
        ensures stream { self.new.stream ≡ self.old.stream }
        ensures connection { self.new.connection ≡ self.old.connection }
    {
        if has_replied {
            self.began = Some(now);
            self.clock = now;
        } else if self.connection.elapsed() < elapsed {
            self.clock = now;
        }
    }

    /// Receives, responses and sends until the stream would block, a response was sent, or the share is used.
    pub(crate) fn exchange<S: Respond>(
        &mut self,
        alloc: Global,
        responder: &S,
        buffer: &mut [u8],
        now: u64,
        share: &mut Share,
    ) -> Progress
        ensures addr { self.new.addr ≡ self.old.addr }
        ensures served { HasServed (S.wanted responder.now, S.responses responder.now) result
            share.old share.new self.old.connection self.new.connection }
        ensures receives { HasReceived T.has_blocked result self.new }
    {
        if self.is_over() {
            return Progress::Blocked;
        }
        let elapsed = self.connection.elapsed();
        let replies = share.responses;
        let progress = self
            .stream
            .transfer(&mut self.connection, alloc, responder, buffer, share);
        self.note_times(share.responses < replies, elapsed, now);
        progress
    }
}

/// The stream of a connection.
pub trait Stream: Drop {
    ghost use Rattle.std.specs.Prelude.{◌≡◌, ◌≢◌, List};
    ghost use Rattle.node_connection.specs.Events.{Event};
    ghost use Rattle.node_connection.specs.States.{wants_in, HasState};
    ghost use Rattle.node_connection.specs.Streams.{IsStopped};
    ghost use Rattle.node_table.specs.Connections.{HasMoved};

    /// The registry that reports the events of streams.
    type Registry;

    /// There was nothing to receive at the last read.
    ghost has_blocked: { Self → Type 0 } = { λ _. Unit {0} };

    /// Registers the stream for events under a key. Returns whether that succeeded.
    fn register(&mut self, registry: &Self::Registry, key: usize) -> bool;

    /// Notes that the registry reported an event, after which a read may give more, and whether the peer has ended its
    /// side by then.
    fn note_event(&mut self, has_ended: bool);

    /// Shuts down the sending side.
    fn shut_down(&self);

    /// Receives, responses and sends until the stream would block, a response was sent, or the share is used.
    fn transfer<S: Respond>(
        &mut self,
        connection: &mut Connection,
        alloc: Global,
        responder: &S,
        buffer: &mut [u8],
        share: &mut Share,
    ) -> Progress
        ensures moved { (history : List Event) → HasState connection.old history
            → HasMoved (S.wanted responder.now, S.responses responder.now) share.old share.new connection.new history }
        ensures still { result ≢ Progress.Moved }
        ensures stopped { IsStopped result share.new connection.new }
        ensures receives { result ≡ Progress.Blocked → wants_in connection.new.phase ≡ Wants.Bytes
            → has_blocked self.new };
}

/// A turn of a connection.
#[derive(Clone, Copy)]
pub struct Turn {
    /// The key of the connection.
    pub key: usize,
    /// The moment, in microseconds.
    pub now: u64,
}

//! The server: the poll and the listener of a node, the request to another server, and the responses that are streamed.
ghost use Rattle.node_machine.specs.Nodes.{IsLater};
ghost use Rattle.node_machine.specs.Promise.{IsRightAfter};

use crate::descriptors::available_clients;
use crate::outgoing::OutgoingRequest;
use crate::socket::{Socket, is_local};
use crate::streamed_response::{StreamKind, StreamedResponse};
use feed_keep::Keep;
use mio::net::TcpListener;
use mio::{Events, Interest, Poll, Token};
use node_connection::{Share, TURN_SHARE, TimeLimits};
use node_machine::{FeedRespond, NodeMachine, node_is_right};
use node_request::{ReceivedRequest, Route};
use node_table::{CloseCause, Log, Outcome, Turn};
use std::alloc::Global;
use std::io;
use std::net::{Net, SocketAddr};
use std::rt::Clock;
use std::time::{Duration, Instant};

mod accepting;
mod following;

pub(crate) const LISTENER: Token = Token(usize::MAX);

const OUTGOING: Token = Token(usize::MAX - 1);

const STREAM: Token = Token(usize::MAX - 2);

// The most milliseconds that a turn blocks.
const TICK: u64 = 250;

// The most events of a turn.
const EVENTS: usize = 1_024;

// The microseconds after which a turn serves no more than one of each queue.
const TURN_MICROS: u64 = 2_000;

// The most connections that a turn ends before it serves those that are ready, since their clients have closed them.
const ENDS: usize = 256;

// The most microseconds for which connections are served before all are closed.
const DRAIN_MICROS: u64 = 250_000;

// The most bytes of one read.
const READ_BYTES: usize = 16_384;

/// The limits of a server.
#[derive(Clone, Copy)]
pub struct Settings {
    /// The most connections at a time.
    pub clients: usize,
    /// The milliseconds that each connection may take.
    pub limits: TimeLimits,
    /// Whether a peer on the same machine is a proxy, which states the address of its client.
    pub is_forwarded: bool,
}

/// A node whose connections are sockets.
pub type ServedNode<'a, K, S> = NodeMachine<'a, Socket, K, S>;

/// The sockets of a node, over which `turn` advances it.
#[derive(Drop)]
pub struct Server {
    alloc: Global,
    poll: Poll,
    listener: TcpListener,
    outgoing: Option<OutgoingRequest>,
    streams: Vec<StreamedResponse>,
    buffer: Vec<u8>,
    /// The most connections at a time.
    clients: usize,
    limits: TimeLimits,
    /// Whether a peer on the same machine is a proxy.
    is_forwarded: bool,
    /// The moment from which the node's times count.
    start: Instant,
    /// The microseconds from that moment to the last reading of the clock.
    now: u64,
    /// The microseconds at which the last wait for the sockets ended, and how many there were from the one before it to
    /// the next wait.
    woke: Option<u64>,
    turn_micros: Option<u64>,
    /// The microseconds at which the clocks of the connections were advanced last.
    last_tick: u64,
    /// Whether new connections are accepted. Otherwise they wait.
    is_accepting: bool,
    /// Whether connections may wait to be accepted that no event will report.
    may_accept: bool,
    /// Whether work is left after the last turn, so that the next one does not block.
    has_more_work: bool,
}

impl Server {
    /// Listens on an address, for as many clients as the process has descriptors, up to the number of the settings.
    pub fn bind<R: Net + Clock + AllocGlobal>(
        rt: &R,
        addr: SocketAddr,
        settings: Settings,
    ) -> io::Result<Server> {
        let alloc = rt.alloc();
        let start = Instant::now(rt)?;
        let buffer = Vec::from_elem(alloc, 0, READ_BYTES)?;
        let (poll, listener) = listen(rt, addr)?;
        let clients = available_clients(rt, settings.clients);
        Ok(Server {
            alloc,
            poll,
            listener,
            outgoing: None,
            streams: Vec::new(alloc),
            buffer,
            clients,
            limits: settings.limits,
            is_forwarded: settings.is_forwarded,
            start,
            now: 0,
            woke: None,
            turn_micros: None,
            last_tick: 0,
            is_accepting: true,
            may_accept: false,
            has_more_work: false,
        })
    }

    /// Returns the most connections at a time.
    pub fn clients(&self) -> usize {
        self.clients
    }

    /// Returns the address that the server listens on.
    pub fn addr(&self) -> io::Result<SocketAddr> {
        self.listener.local_addr()
    }

    /// Returns how many microseconds the turn before the last one took: from the end of its wait for the sockets to the
    /// next wait, with all that the node did meanwhile. Returns none in the first turn.
    pub fn turn_micros(&self) -> Option<u64> {
        self.turn_micros
    }

    /// Returns a buffer for the events of a turn.
    pub fn events(&self) -> io::Result<Events> {
        Ok(Events::with_capacity(self.alloc, EVENTS)?)
    }

    /// Begins a request to another server, as `OutgoingRequest::begin` does. It replaces one that is under way.
    pub fn begin_request<R: Net + AllocGlobal>(
        &mut self,
        rt: &R,
        addr: SocketAddr,
        limit: u64,
        request: Vec<u8>,
    ) -> io::Result<()> {
        let mut outgoing = OutgoingRequest::begin(rt, addr, limit, request)?;
        let both = Interest::READABLE | Interest::WRITABLE;
        self.poll
            .registry()
            .register(&mut outgoing.stream, OUTGOING, both)?;
        self.outgoing = Some(outgoing);
        Ok(())
    }

    /// Returns the request to another server that is under way.
    pub fn outgoing(&mut self) -> Option<&mut OutgoingRequest> {
        self.outgoing.as_mut()
    }

    /// Takes the request to another server, with the bytes of its response, and with it the connection.
    pub fn take_request(&mut self) -> Option<OutgoingRequest> {
        self.outgoing.take()
    }

    /// Has the next turn not block, since work is left outside of the server.
    pub fn skip_wait(&mut self) {
        self.has_more_work = true;
    }

    /// Appends a text to the bodies of the streamed responses about a fetch, or about the folder of site files.
    pub fn send_to_streams(&mut self, kind: StreamKind, text: &[u8]) {
        for stream in self.streams.iter_mut() {
            stream.append(kind, text);
        }
        self.send_streams();
    }

    /// Completes the streamed responses about a fetch, or about the folder of site files.
    pub fn finish_streams(&mut self, kind: StreamKind) {
        for stream in self.streams.iter_mut() {
            stream.finish(kind);
        }
        self.send_streams();
    }

    fn send_streams(&mut self) {
        let buffer = &mut self.buffer;
        self.streams.retain_mut(|stream| {
            stream.send_more(buffer);
            !stream.is_over()
        });
    }

    fn read_clock(&mut self, rt: &impl Clock) -> io::Result<()> {
        let now = Instant::now(rt)?;
        self.now = now
            .saturating_duration_since(self.start)
            .as_micros()
            .min(u64::MAX as u128) as u64;
        Ok(())
    }

    /// Waits at most 250 ms for the sockets, gives each connection that is ready its share of the turn, and closes each
    /// one that is over. Each history that the node had continues to one that it has then, and after it the node keeps
    /// its promise. The same holds if the poll or the clock fails.
    pub fn turn<K: Keep, S: FeedRespond + Drop, L: Log>(
        &mut self,
        rt: &impl Clock,
        node: &mut ServedNode<'_, K, S>,
        events: &mut Events,
        log: &mut L,
    ) -> io::Result<()>
        ensures later { IsLater S.wanted S.responses S.sites node.old node.new }
        ensures right { IsRightAfter S.wanted S.responses S.sites node.old node.new }
    {
        let outcome = self.run_turn(rt, node, events, log);
        node_is_right(node);
        outcome
    }

    /// Runs turns until all connections are closed, for at most 250 ms, and closes those that are left. New connections
    /// wait meanwhile, and the next turn accepts them: it may be one of another node.
    pub fn drain<K: Keep, S: FeedRespond + Drop, L: Log>(
        &mut self,
        rt: &impl Clock,
        node: &mut ServedNode<'_, K, S>,
        events: &mut Events,
        log: &mut L,
    ) -> io::Result<()>
        ensures { IsLater S.wanted S.responses S.sites node.old node.new }
    {
        self.set_accepting(false);
        let outcome = self.run_last_turns(rt, node, events, log);
        self.close_all(node, log);
        self.set_accepting(true);
        outcome
    }

    fn set_accepting(&mut self, is_accepting: bool) {
        self.is_accepting = is_accepting;
        self.may_accept = is_accepting;
        self.has_more_work = is_accepting;
    }

    // Runs turns until all connections are closed, for at most 250 ms.
    fn run_last_turns<K: Keep, S: FeedRespond + Drop, L: Log>(
        &mut self,
        rt: &impl Clock,
        node: &mut ServedNode<'_, K, S>,
        events: &mut Events,
        log: &mut L,
    ) -> io::Result<()>
        ensures { IsLater S.wanted S.responses S.sites node.old node.new }
    {
        let end = self.now.saturating_add(DRAIN_MICROS);
        for _ in 0..u64::MAX {
            if node.table().len() == 0 || end <= self.now {
                return Ok(());
            }
            self.run_turn(rt, node, events, log)?;
        }
        Ok(())
    }

    // Closes all connections.
    fn close_all<K: Keep, S: FeedRespond + Drop, L: Log>(
        &self,
        node: &mut ServedNode<'_, K, S>,
        log: &mut L,
    )
        ensures { IsLater S.wanted S.responses S.sites node.old node.new }
    {
        for _ in 0..node.table().len() {
            node.make_room(self.now, log);
        }
    }

    fn run_turn<K: Keep, S: FeedRespond + Drop, L: Log>(
        &mut self,
        rt: &impl Clock,
        node: &mut ServedNode<'_, K, S>,
        events: &mut Events,
        log: &mut L,
    ) -> io::Result<()>
        ensures { IsLater S.wanted S.responses S.sites node.old node.new }
    {
        self.wait(rt, node.table().has_ready(), events)?;
        let mut ends = ENDS;
        for event in events.iter() {
            self.on_event(node, event, &mut ends, log);
        }
        let end = self.now.saturating_add(TURN_MICROS);
        self.accept_waiting(node, log);
        self.serve_ready(rt, node, end, log)?;
        // If all waited to be served, those that were served may make room now.
        let has_more_work = self.accept_waiting(node, log);
        self.end_turn(has_more_work, node, log);
        Ok(())
    }

    // Waits for the sockets, unless a connection is ready or work is left, and reads the clock before and after it.
    fn wait(&mut self, rt: &impl Clock, has_ready: bool, events: &mut Events) -> io::Result<()> {
        self.read_clock(rt)?;
        self.turn_micros = match self.woke {
            Some(woke) => Some(self.now.saturating_sub(woke)),
            None => None,
        };
        let may_block = !has_ready && !self.has_more_work;
        let wait = if may_block { TICK } else { 0 };
        self.poll.poll(events, Some(Duration::from_millis(wait)))?;
        self.read_clock(rt)?;
        self.woke = Some(self.now);
        Ok(())
    }

    // Advances all but the connections: the request to another server, the streamed responses, and the clocks.
    fn end_turn<K: Keep, S: FeedRespond + Drop, L: Log>(
        &mut self,
        has_more_work: bool,
        node: &mut ServedNode<'_, K, S>,
        log: &mut L,
    )
        ensures { IsLater S.wanted S.responses S.sites node.old node.new }
    {
        self.has_more_work = self.run_outgoing() || has_more_work;
        self.send_streams();
        self.advance_clock(node, log);
    }

    // Gives the connections that are ready one share of the turn, until its time is over. One that has more to do waits
    // for the next turn.
    fn serve_ready<K: Keep, S: FeedRespond + Drop, L: Log>(
        &mut self,
        rt: &impl Clock,
        node: &mut ServedNode<'_, K, S>,
        end: u64,
        log: &mut L,
    ) -> io::Result<()>
        ensures { IsLater S.wanted S.responses S.sites node.old node.new }
    {
        let mut rest = node.table().begin_turn();
        for _ in 0..u64::MAX {
            let Some(key) = node.next_ready(&mut rest, end <= self.now) else {
                return Ok(());
            };
            self.serve(rt, node, key, log)?;
        }
        Ok(())
    }

    // Gives a connection one share of the turn.
    fn serve<K: Keep, S: FeedRespond + Drop, L: Log>(
        &mut self,
        rt: &impl Clock,
        node: &mut ServedNode<'_, K, S>,
        key: usize,
        log: &mut L,
    ) -> io::Result<()>
        ensures { IsLater S.wanted S.responses S.sites node.old node.new }
    {
        let mut share = TURN_SHARE;
        if self.next_response(key, &mut share, rt, node, log)? == Outcome::Resumed {
            self.next_response(key, &mut share, rt, node, log)?;
        }
        Ok(())
    }

    // Has a connection use its share until a response was sent, once there is memory for another response. The step
    // begins at the last reading of the clock, so that one reading for each step is enough.
    fn next_response<K: Keep, S: FeedRespond + Drop, L: Log>(
        &mut self,
        key: usize,
        share: &mut Share,
        rt: &impl Clock,
        node: &mut ServedNode<'_, K, S>,
        log: &mut L,
    ) -> io::Result<Outcome>
        ensures { IsLater S.wanted S.responses S.sites node.old node.new }
    {
        node.free_memory(self.now, log);
        let is_local = node.table().addr(key).is_some_and(is_local);
        let turn = Turn { key, now: self.now };
        let progress = node.serve_share(turn, is_local, &mut self.buffer, share);
        self.read_clock(rt)?;
        let outcome = node.settle(key, progress, self.now, log);
        if outcome == Outcome::Streams {
            self.stream_to(node, key, log);
        }
        Ok(outcome)
    }

    // Advances the request to another server. Returns whether it used all of its share of the turn.
    fn run_outgoing(&mut self) -> bool {
        match &mut self.outgoing {
            Some(outgoing) => outgoing.exchange(),
            None => false,
        }
    }

    // Keeps the socket of a client that has the head of its streamed response, to send the body.
    fn stream_to<K: Keep, S: FeedRespond + Drop, L: Log>(
        &mut self,
        node: &mut ServedNode<'_, K, S>,
        key: usize,
        log: &mut L,
    )
        ensures { IsLater S.wanted S.responses S.sites node.old node.new }
    {
        let kind = stream_kind(node.table().streamed_request(key));
        let Some(socket) = node.remove(key, CloseCause::Streamed, self.now, log) else {
            return;
        };
        let mut stream = socket.stream;
        // Otherwise the system holds a line back until the client acknowledges the one before it.
        let _ = stream.set_nodelay(true);
        let both = Interest::READABLE | Interest::WRITABLE;
        let registry = self.poll.registry();
        let known = registry.reregister(&mut stream, STREAM, both);
        if known.is_err() && registry.register(&mut stream, STREAM, both).is_err() {
            return;
        }
        let stream = StreamedResponse::new(self.alloc, kind, stream, self.limits.step);
        let _ = self.streams.push(stream);
    }

    // Registers the socket of a connection with the poll. If that fails, the connection is removed.
    fn watch<K: Keep, S: FeedRespond + Drop, L: Log>(
        &self,
        node: &mut ServedNode<'_, K, S>,
        key: usize,
        log: &mut L,
    )
        ensures { IsLater S.wanted S.responses S.sites node.old node.new }
    {
        if !node.register(key, self.poll.registry()) {
            let _ = node.remove(key, CloseCause::PeerClosed, self.now, log);
        }
    }

    // Advances the clocks, at most once in 250 ms.
    fn advance_clock<K: Keep, S: FeedRespond + Drop, L: Log>(
        &mut self,
        node: &mut ServedNode<'_, K, S>,
        log: &mut L,
    )
        ensures { IsLater S.wanted S.responses S.sites node.old node.new }
    {
        let millis = self.now.saturating_sub(self.last_tick) / 1_000;
        if millis < TICK {
            return;
        }
        self.last_tick = self.now;
        if let Some(outgoing) = &mut self.outgoing {
            outgoing.advance_clock(millis);
        }
        for stream in self.streams.iter_mut() {
            stream.advance_clock(millis);
        }
        self.send_streams();
        node.advance_clock(self.now, log);
    }
}

// Returns what the streamed response to a request is about.
fn stream_kind(received: Option<ReceivedRequest<'_>>) -> StreamKind {
    match received.and_then(|received| received.parsed()) {
        Some(parsed) if parsed.route == Route::Sites => StreamKind::Sites,
        _ => StreamKind::Fetch,
    }
}

// Makes the socket that listens on an address, and the poll that reports its connections.
fn listen<R: Net>(rt: &R, addr: SocketAddr) -> io::Result<(Poll, TcpListener)> {
    let poll = Poll::new(rt)?;
    let mut listener = TcpListener::bind(rt, addr)?;
    poll.registry()
        .register(&mut listener, LISTENER, Interest::READABLE)?;
    Ok((poll, listener))
}

//! The connections of a node as a value.
ghost use Rattle.std.specs.Prelude.{◌≡◌, ◌≢◌, ◌≤◌, ◌<◌, ◌+◌, ◌⊎◌, ℕ, []};
ghost use Rattle.std.specs.Prelude.{true, false, length, nat_le};
ghost use Rattle.std.specs.Prelude.{sum_by};
ghost use Rattle.std.specs.Prelude.{Some, None, IfOk, IfSome, IfNone, IsSome, IsSomeAnd};
ghost use Rattle.slab.specs.Slab.{ContainsKey, slab_len};
ghost use Rattle.node_turns.specs.Addresses.{slot_limit};
ghost use Rattle.node_turns.specs.Turns.{key_count, slot_count, IsReady};
ghost use Rattle.node_table.specs.Peers.{held_in, AreBounded};

use crate::log::{CloseCause, Log};
use crate::peer::{NewConnection, Outcome, Peer, Stream, Turn};
use node_connection::{Progress, Respond, Share, Shortage};
use node_turns::{ReadyQueues, SLOTS, TurnRest};
use slab::Slab;
use std::alloc::{AllocError, Global};

mod places;
mod streams;

/// The bytes of responses past which the connection that holds the most is closed.
pub const HELD_LIMIT: usize = 33_554_432;

/// The connections of a node, each under a key. Times are in microseconds since a moment that the caller chooses.
#[derive(Drop)]
pub struct Table<T> {
    peers: Slab<Peer<T>>,
    /// The keys of the connections that are ready.
    ready: ReadyQueues,
    /// The bytes that are allocated for the responses of all connections.
    held: usize,
    /// The most connections at a time.
    clients: usize,
    ghost few: { slab_len peers ≤ clients },
    ghost reserved: { clients ≤ peers.capacity },
    ghost covered: { peers.capacity ≤ key_count ready },
    ghost slotted: { slot_count ready ≡ slot_limit },
    ghost known: { (key : ℕ) → IsReady ready key → ContainsKey peers key },
    ghost counted: { held ≡ sum_by held_in peers.slots },
    ghost bounded: { AreBounded peers.slots },
}

impl<T: Stream> Table<T> {
    ghost use Rattle.node_connection.specs.States.{is_closed_before, HasState};
    ghost use Rattle.node_table.specs.Logs.{Accepted, HasRecorded};
    ghost use Rattle.node_table.specs.Tables.{peer_at, size_of, bytes_held, IsReadyAfter, KeepsOthers};
    ghost use Rattle.node_turns.specs.Flags.{IsDropped};
    ghost use Rattle.node_turns.specs.Queues.{IsWhole, MayServe};
    ghost use Rattle.node_turns.specs.Rounds.{key_total, IsDroppedFrom};
    ghost use Rattle.node_turns.specs.Turns.{behind_ring, fresh_ring, spare_keys, waiting_count};
    ghost use Rattle.node_turns.specs.Turns.{IsFromBehind, IsFromFresh, IsTaken};
    ghost use Rattle.node_table.specs.declared.peer.Peer.{Peer};
    ghost use Rattle.node_table.specs.Peers.{cause_of, held_limit, IsFollowed, IsLate};
    ghost use Rattle.node_table.specs.Tables.{IsFirstToClose, IsFirstBelow, IsRemoved, HasClosed, IsSettled};
    ghost use Rattle.node_table.specs.Tables.{AreElapsed, HasReceivedAt, IsElapsedAt, IsExpired, IsServed};
    ghost use Rattle.node_table.specs.Tables.{IsReadyForClient, KeepsConnections};
    ghost use Rattle.node_table.specs.Tables.{held_at, is_closed_first, waits};

    /// Returns an empty table for at most this many connections, with the memory for all of them.
    pub fn new(alloc: Global, clients: usize) -> Result<Table<T>, AllocError>
        ensures empty { IfOk result (λ table. size_of table ≡ 0) }
        ensures clients { IfOk result (λ table. table.clients ≡ clients) }
        ensures none_ready { IfOk result (λ table. waiting_count table.ready ≡ 0) }
    {
        let peers = Slab::with_capacity(alloc, clients)?;
        let ready = ReadyQueues::new(alloc, peers.capacity(), SLOTS)?;
        Ok(Table {
            peers,
            ready,
            held: 0,
            clients,
        })
    }

    /// Returns the most connections at a time.
    pub fn clients(&self) -> usize
        ensures { result ≡ self.now.clients }
    {
        self.clients
    }

    /// Returns the number of connections.
    pub fn len(&self) -> usize
        ensures size { result ≡ size_of self.now }
        ensures most { result ≤ self.now.clients }
    {
        self.peers.len()
    }

    /// Returns whether there are as many connections as there may be.
    pub fn is_full(&self) -> bool
        ensures { result ≡ nat_le self.now.clients (size_of self.now) }
    {
        self.clients <= self.peers.len()
    }

    /// Returns the bytes that are allocated for the responses of all connections, each from when it is made until it is
    /// freed: at most 33,554,432 and those of the longest one.
    pub fn bytes_held(&self) -> usize
        ensures held { result ≡ bytes_held self.now }
        ensures bounded { (longest : ℕ) → ((key : ℕ) → held_at self.now key ≤ longest)
            → result ≤ held_limit + longest }
    {
        self.held
    }

    /// Adds a connection that was accepted now, and returns its key.
    pub fn insert<L: Log>(
        &mut self,
        alloc: Global,
        accepted: NewConnection<T>,
        log: &mut L,
    ) -> usize
        requires { size_of self.old < self.old.clients }
        ensures vacant { peer_at self.old result ≡ None }
        ensures added { IsSomeAnd (peer_at self.new result) (λ peer. peer.addr ≡ accepted.addr) }
        ensures fresh { IsSomeAnd (peer_at self.new result) (λ peer. HasState peer.connection []) }
        ensures others { KeepsOthers result self.old self.new }
        ensures size { size_of self.new ≡ size_of self.old + 1 }
        ensures held { bytes_held self.new ≡ bytes_held self.old }
        ensures ready { self.new.ready ≡ self.old.ready }
        ensures clients { self.new.clients ≡ self.old.clients }
        ensures recorded { L.records log.old (Accepted accepted.addr) log.new }
    {
        log.on_accept(accepted.addr);
        let peer = Peer::new(alloc, accepted);
        self.peers.insert_reserved(peer)
    }

    /// Removes a connection for a cause, and records that. Returns its stream.
    pub fn remove<L: Log>(
        &mut self,
        key: usize,
        cause: CloseCause,
        now: u64,
        log: &mut L,
    ) -> Option<T>
        ensures removed { IsSome (peer_at self.old key)
            → IsRemoved L.records key cause now self.old self.new log.old log.new }
        ensures absent { peer_at self.old key ≡ None → (self.new ≡ self.old) × (log.new ≡ log.old) }
    {
        let Some(peer) = self.peers.try_remove(key) else {
            return None;
        };
        self.ready.remove(key);
        self.held -= peer.held();
        log.on_close(peer.addr, &peer.connection, cause, peer.micros(now));
        Some(peer.stream)
    }

    // Returns whether a connection waits for its share of a turn among those that were idle. For memory, that does not
    // count.
    fn waits(&self, shortage: Shortage, key: usize) -> bool
        ensures { result ≡ waits shortage self.now key }
    {
        match shortage {
            Shortage::Places => self.ready.is_waiting(key),
            Shortage::Memory => false,
        }
    }

    // Returns whether the first of two connections is closed before the second.
    fn is_closed_first(
        &self,
        shortage: Shortage,
        key: usize,
        peer: &Peer<T>,
        other: usize,
        rival: &Peer<T>,
    ) -> bool
        ensures { result ≡ is_closed_first shortage self.now key peer.now other rival.now }
    {
        let waits = self.waits(shortage, key);
        if waits == self.waits(shortage, other) {
            peer.connection
                .is_closed_before(&rival.connection, shortage)
        } else {
            !waits
        }
    }

    // Returns the one of two connections that is closed before the other.
    fn closed_first(&self, shortage: Shortage, first: Option<usize>, key: usize) -> Option<usize>
        requires { IsFirstBelow shortage self.now key first }
        ensures { IsFirstBelow shortage self.now (key + 1) result }
    {
        let Some(peer) = self.peers.get(key) else {
            return first;
        };
        if let Some(other) = first {
            if let Some(rival) = self.peers.get(other) {
                if !self.is_closed_first(shortage, key, peer, other, rival) {
                    return first;
                }
            }
        }
        Some(key)
    }

    /// Returns the key of the connection that is closed first. For a place it is the one that is idle longest,
    /// otherwise the slowest reader, otherwise the quietest; one that waits for its share only if all do. For memory it
    /// is the one whose response takes the most, and of equals the slowest reader.
    pub fn first_to_close(&self, shortage: Shortage) -> Option<usize>
        ensures first { IfSome result (λ key. IsFirstToClose shortage self.now key) }
        ensures none { IfNone result (size_of self.now ≡ 0) }
    {
        let mut first = None;
        for key in 0..self.peers.capacity() {
            first = self.closed_first(shortage, first, key);
        }
        first
    }

    /// Closes the connection whose response takes the most memory, if the responses take more than 33,554,432 bytes.
    /// Afterwards they take less.
    pub fn free_memory<L: Log>(&mut self, now: u64, log: &mut L)
        ensures within { bytes_held self.new ≤ held_limit }
        ensures removed { held_limit < bytes_held self.old → (key : ℕ) × IsFirstToClose Shortage.Memory self.old key
            × IsRemoved L.records key CloseCause.Unread now self.old self.new log.old log.new }
        ensures kept { bytes_held self.old ≤ held_limit → (self.new ≡ self.old) × (log.new ≡ log.old) }
    {
        if self.held <= HELD_LIMIT {
            return;
        }
        let Some(key) = self.first_to_close(Shortage::Memory) else {
            return;
        };
        let _ = self.remove(key, CloseCause::Unread, now, log);
    }

    /// Returns whether a turn has a connection to serve.
    pub fn has_ready(&self) -> bool
        ensures some { result ≡ true → 0 < waiting_count self.now.ready }
        ensures none { result ≡ false → waiting_count self.now.ready ≡ 0 }
    {
        !self.ready.is_empty()
    }

    /// Begins a turn: it serves as many connections as are ready now.
    pub fn begin_turn(&self) -> TurnRest
        ensures fresh { IsWhole (key_total self.now.ready.fresh) result.fresh }
        ensures behind { IsWhole (key_total self.now.ready.behind) result.behind }
        ensures spare { IsWhole (length (spare_keys self.now.ready)) result.spare }
    {
        self.ready.begin_turn()
    }

    /// Takes the key of the connection that the turn serves next. Those that were idle, or have their first request, go
    /// first, one of each address in turn. Once the time of the turn is over, it still serves one of each kind, if it
    /// has served none.
    pub fn next_ready(&mut self, rest: &mut TurnRest, is_over: bool) -> Option<usize>
        ensures taken { IsTaken result self.old.ready self.new.ready }
        ensures first { MayServe is_over rest.old.fresh (fresh_ring self.old.ready)
            → IsSomeAnd result (λ key. IsFromFresh key self.old.ready self.new.ready) }
        ensures second { MayServe is_over rest.old.behind (behind_ring self.old.ready)
            → IsSomeAnd result (λ key. IsFromFresh key self.old.ready self.new.ready
            ⊎ IsFromBehind key self.old.ready self.new.ready) }
        ensures some { MayServe is_over rest.old.spare (spare_keys self.old.ready) → IsSome result }
        ensures served { rest.new.behind.has_served ≡ true → (rest.old.behind.has_served ≡ true)
            ⊎ IsSomeAnd result (λ key. IsFromBehind key self.old.ready self.new.ready) }
        ensures less { IfSome result (λ _. rest.new.fresh.left + rest.new.behind.left + rest.new.spare.left
            < rest.old.fresh.left + rest.old.behind.left + rest.old.spare.left) }
        ensures kept { ((rest.new.fresh ≡ rest.old.fresh)
            ⊎ IsSomeAnd result (λ key. IsFromFresh key self.old.ready self.new.ready))
            × ((rest.new.behind ≡ rest.old.behind)
            ⊎ IsSomeAnd result (λ key. IsFromBehind key self.old.ready self.new.ready)) }
        ensures known { IfSome result (λ key. IsSome (peer_at self.new key)) }
        ensures peers { self.new.peers ≡ self.old.peers }
        ensures clients { self.new.clients ≡ self.old.clients }
    {
        self.ready.next(rest, is_over)
    }

    /// Marks a connection as ready: behind the others if it has more to do, and otherwise among those that were idle.
    pub fn mark_ready(&mut self, key: usize)
        ensures marked { (peer : Peer T) → peer_at self.old key ≡ Some peer
            → IsReadyAfter key peer self.old self.new }
        ensures absent { peer_at self.old key ≡ None → self.new ≡ self.old }
        ensures peers { self.new.peers ≡ self.old.peers }
        ensures clients { self.new.clients ≡ self.old.clients }
    {
        if self.peers.capacity() <= key {
            return;
        }
        let Some(peer) = self.peers.get(key) else {
            return;
        };
        self.ready.mark(key, peer.slot, peer.is_behind());
    }

    /// Has a connection whose peer is a proxy wait in the queue of the client whose request it holds, and marks it as
    /// ready there, among those that were idle.
    pub fn mark_for_client(&mut self, key: usize)
        ensures marked { (peer : Peer T) → peer_at self.old key ≡ Some peer
            → IsReadyForClient key peer self.old self.new }
        ensures connections { KeepsConnections self.old self.new }
        ensures others { KeepsOthers key self.old self.new }
        ensures size { size_of self.new ≡ size_of self.old }
        ensures held { bytes_held self.new ≡ bytes_held self.old }
        ensures clients { self.new.clients ≡ self.old.clients }
    {
        if self.peers.capacity() <= key {
            return;
        }
        let Some(peer) = self.peers.get_mut(key) else {
            return;
        };
        let slot = peer.follow_client();
        self.ready.mark(key, slot, false);
    }

    /// Gives a connection a share of the turn: it receives, responds and sends until its stream would block, a response
    /// was sent, or the share is used. `free_memory` was called before, so that its response is the only one past the
    /// limit. If the last step marked it as ready, it is not any more.
    pub fn serve_peer<S: Respond>(
        &mut self,
        turn: Turn,
        alloc: Global,
        responder: &S,
        buffer: &mut [u8],
        share: &mut Share,
    ) -> Progress
        requires { bytes_held self.old ≤ held_limit }
        ensures served { IsServed (S.wanted responder.now, S.responses responder.now) turn.key result
            share.old share.new self.old self.new }
        ensures received { HasReceivedAt T.has_blocked turn.key result self.new }
        ensures still { result ≢ Progress.Moved }
        ensures absent { peer_at self.old turn.key ≡ None → peer_at self.new turn.key ≡ None }
        ensures others { KeepsOthers turn.key self.old self.new }
        ensures size { size_of self.new ≡ size_of self.old }
        ensures clients { self.new.clients ≡ self.old.clients }
        ensures fresh { IsDroppedFrom turn.key self.old.ready.fresh self.new.ready.fresh }
        ensures behind { IsDroppedFrom turn.key self.old.ready.behind self.new.ready.behind }
        ensures spare { IsDropped turn.key (spare_keys self.old.ready) (spare_keys self.new.ready) }
    {
        self.ready.drop_last(turn.key);
        let Some(peer) = self.peers.get_mut(turn.key) else {
            return Progress::Blocked;
        };
        let rest = self.held - peer.held();
        let progress = peer.exchange(alloc, responder, buffer, turn.now, share);
        self.held = rest + peer.held();
        progress
    }

    // Does what follows `serve_peer`, but leaves the queues as they are.
    fn settle_peer<L: Log>(
        &mut self,
        key: usize,
        progress: Progress,
        now: u64,
        log: &mut L,
    ) -> Outcome
        ensures followed { (peer : Peer T) → peer_at self.old key ≡ Some peer → (next : Peer T)
            × (peer_at self.new key ≡ Some next)
            × IsFollowed L.records result progress now peer next log.old log.new }
        ensures absent { peer_at self.old key ≡ None → peer_at self.new key ≡ None }
        ensures others { KeepsOthers key self.old self.new }
        ensures size { size_of self.new ≡ size_of self.old }
        ensures clients { self.new.clients ≡ self.old.clients }
        ensures ready { self.new.ready ≡ self.old.ready }
        ensures held { bytes_held self.new ≡ bytes_held self.old }
        ensures recorded { HasRecorded L.records CloseCause.PeerClosed 0 log.old log.new }
    {
        match self.peers.get_mut(key) {
            Some(peer) => peer.settle(progress, now, log),
            None => Outcome::Over,
        }
    }

    // Removes a connection because its last response was sent, or else for this cause.
    fn close<L: Log>(&mut self, key: usize, cause: CloseCause, now: u64, log: &mut L)
        ensures removed { (peer : Peer T) → peer_at self.old key ≡ Some peer
            → IsRemoved L.records key (cause_of peer cause) now self.old self.new log.old log.new }
        ensures absent { peer_at self.old key ≡ None → (self.new ≡ self.old) × (log.new ≡ log.old) }
    {
        let Some(peer) = self.peers.get(key) else {
            return;
        };
        let cause = peer.close_cause(cause);
        let _ = self.remove(key, cause, now, log);
    }

    /// Does what follows `serve_peer`, by how that ended: records a response that was sent, marks the connection as
    /// ready if it has more to do, and removes it if it is over. A response that was sent ended now.
    pub fn settle<L: Log>(
        &mut self,
        key: usize,
        progress: Progress,
        now: u64,
        log: &mut L,
    ) -> Outcome
        ensures settled { IsSettled L.records key progress now result self.old self.new log.old log.new }
        ensures absent { peer_at self.old key ≡ None → peer_at self.new key ≡ None }
    {
        let outcome = self.settle_peer(key, progress, now, log);
        match outcome {
            Outcome::Waits => Outcome::Waits,
            Outcome::Streams => Outcome::Streams,
            Outcome::Ready => {
                self.mark_ready(key);
                Outcome::Ready
            }
            Outcome::Resumed => {
                self.mark_ready(key);
                Outcome::Resumed
            }
            Outcome::Over => {
                self.close(key, CloseCause::PeerClosed, now, log);
                Outcome::Over
            }
        }
    }

    // Advances the clock of a connection. Returns whether its time limit passed by that.
    fn advance_clock_of(&mut self, key: usize, now: u64) -> bool
        ensures late { (peer : Peer T) → peer_at self.old key ≡ Some peer → result ≡ true → IsLate peer now }
        ensures in_time { (peer : Peer T) → peer_at self.old key ≡ Some peer → result ≡ false
            → (¬ (IsLate peer now)) × IsSome (peer_at self.new key) }
        ensures there { result ≡ true → IsSome (peer_at self.new key) }
        ensures elapsed { IsElapsedAt now key self.old self.new }
        ensures others { KeepsOthers key self.old self.new }
        ensures size { size_of self.new ≡ size_of self.old }
        ensures clients { self.new.clients ≡ self.old.clients }
        ensures ready { self.new.ready ≡ self.old.ready }
        ensures held { bytes_held self.new ≡ bytes_held self.old }
    {
        match self.peers.get_mut(key) {
            Some(peer) => peer.advance_clock(now),
            None => false,
        }
    }

    // Advances the clock of a connection, and removes it if it is out of time.
    fn expire<L: Log>(&mut self, key: usize, now: u64, log: &mut L)
        ensures closed { HasClosed L.records CloseCause.TimedOut self.old self.new log.old log.new }
        ensures others { KeepsOthers key self.old self.new }
        ensures late { (peer : Peer T) → peer_at self.old key ≡ Some peer → IsLate peer now
            → peer_at self.new key ≡ None }
        ensures kept { (peer : Peer T) → peer_at self.old key ≡ Some peer → ¬ (IsLate peer now)
            → IsSome (peer_at self.new key) }
        ensures elapsed { IsElapsedAt now key self.old self.new }
    {
        if self.advance_clock_of(key, now) {
            self.close(key, CloseCause::TimedOut, now, log);
        }
    }

    /// Advances the clocks of all connections, and removes those that are out of time.
    pub fn advance_clock<L: Log>(&mut self, now: u64, log: &mut L)
        ensures expired { IsExpired now self.old self.new }
        ensures elapsed { AreElapsed now self.old self.new }
        ensures closed { HasClosed L.records CloseCause.TimedOut self.old self.new log.old log.new }
    {
        for key in 0..self.peers.capacity() {
            self.expire(key, now, log);
        }
    }
}

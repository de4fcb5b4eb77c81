//! The node as a value, and its connections.
ghost use Rattle.std.specs.Prelude.{◌≡◌, ◌<◌, ◌≤◌, ◌+◌, ◌⊎◌, ◌∷◌, ℕ, true, List, None, Some, IsSome, IsSomeAnd};
ghost use Rattle.std.specs.Prelude.{IfErr, IfOk, IfSome, option_copied};
ghost use Rattle.node_turns.specs.Queues.{MayServe};
ghost use Rattle.node_turns.specs.Turns.{behind_ring, fresh_ring, spare_keys, IsFromBehind, IsFromFresh, IsTaken};
ghost use Rattle.feed_model.specs.Content.{IsContent};
ghost use Rattle.feed_releases.specs.Feeds.{most_of, recorded};
ghost use Rattle.node_table.specs.Peers.{held_limit};
ghost use Rattle.node_table.specs.Places.{AreEvictions, HasRoomFor};
ghost use Rattle.node_table.specs.Tables.{peer_at, size_of, bytes_held, HasClosed, IsExpired, IsFirstToClose};
ghost use Rattle.node_table.specs.Tables.{IsReadyAfter, IsRemoved};
ghost use Rattle.node_table.specs.declared.peer.Peer.{Peer};
ghost use Rattle.node_machine.specs.NodeEvents.{NodeEvent, Accepted, Passed, DayBegan, SitesBegan, Reopened};
ghost use Rattle.node_machine.specs.NodeEvents.{accepted_in, feed_history};
ghost use Rattle.node_machine.specs.Rules.{AreGiven};
ghost use Rattle.node_machine.specs.Nodes.{table_of, HasHistory, IsLater, KeepsHistory};

use crate::fetching::Fetching;
use crate::occasion::FeedRespond;
use feed_answer::Today;
use feed_keep::Keep;
use feed_names::{NameFault, ReleaseName};
use feed_releases::Feed;
use node_connection::Shortage;
use node_request::SitesRequest;
use node_table::{CloseCause, Log, NewConnection, Stream, Table};
use node_turns::TurnRest;
use std::alloc::{AllocError, Global};

/// A node without its sockets. Times are in microseconds since a moment that the caller chooses.
#[derive(Drop)]
pub struct NodeMachine<'a, T, K: Keep, S> {
    pub(crate) alloc: Global,
    pub(crate) table: Table<T>,
    pub(crate) feed: Feed<K>,
    pub(crate) responder: S,
    /// The token that authorizes a fetch. Without one, no client may make the node fetch.
    pub(crate) token: Option<&'a [u8]>,
    /// The fetch that is under way.
    pub(crate) fetching: Option<Fetching>,
    /// The release that a client asked to fetch next, or why its name is invalid.
    pub(crate) requested: Option<Result<ReleaseName, NameFault>>,
    /// The day, in UTC.
    pub(crate) today: Today,
    /// The request of a client about the folder of site files, while the folder is read for it.
    pub(crate) reload: Option<SitesRequest>,
}

impl<'a, T: Stream, K: Keep, S: FeedRespond + Drop> NodeMachine<'a, T, K, S> {
    /// Opens a node over a feed on this day, with a table that has no connection.
    pub fn new(
        alloc: Global,
        table: Table<T>,
        feed: Feed<K>,
        responder: S,
        token: Option<&'a [u8]>,
        today: Today,
    ) -> NodeMachine<'a, T, K, S>
        requires { size_of table ≡ 0 }
        ensures history { (history : List (NodeEvent S.Sites)) → IsContent (recorded feed) (feed_history history)
            → AreGiven history → HasHistory S.wanted S.responses S.sites result
            (SitesBegan (S.sites responder) ∷ DayBegan today ∷ Reopened ∷ history) }
        ensures token { option_copied result.token ≡ option_copied token.entry }
        ensures room { most_of result.feed ≡ most_of feed }
    {
        NodeMachine {
            alloc,
            table,
            feed,
            responder,
            token,
            fetching: None,
            requested: None,
            today,
            reload: None,
        }
    }

    /// Begins a day.
    pub fn begin_day(&mut self, today: Today)
        ensures history { (history : List (NodeEvent S.Sites))
            → HasHistory S.wanted S.responses S.sites self.old history
            → HasHistory S.wanted S.responses S.sites self.new (DayBegan today ∷ history) }
        ensures later { IsLater S.wanted S.responses S.sites self.old self.new }
    {
        self.today = today;
    }

    /// Returns the connections.
    pub fn table(&self) -> &Table<T>
        ensures { result.now ≡ self.now.table }
    {
        &self.table
    }

    /// Closes the connection that is closed for a place, if there is any.
    pub fn make_room<L: Log>(&mut self, now: u64, log: &mut L)
        ensures history { KeepsHistory S.wanted S.responses S.sites self.old self.new }
        ensures later { IsLater S.wanted S.responses S.sites self.old self.new }
        ensures removed { 0 < size_of (table_of self.old) → (key : ℕ)
            × IsFirstToClose Shortage.Places (table_of self.old) key
            × IsRemoved L.records key CloseCause.Evicted now (table_of self.old) (table_of self.new) log.old log.new }
    {
        self.table.make_room(now, log);
    }

    /// Closes connections until this many can be added, as `Table::make_places` does.
    ///
    /// # Errors
    ///
    /// Running out of memory for the order of closing, if there are fewer free places. None is closed then.
    pub fn make_places<L: Log>(
        &mut self,
        count: usize,
        now: u64,
        log: &mut L,
    ) -> Result<(), AllocError>
        ensures history { KeepsHistory S.wanted S.responses S.sites self.old self.new }
        ensures later { IsLater S.wanted S.responses S.sites self.old self.new }
        ensures evicted { (number : ℕ)
            × AreEvictions L.records number now (table_of self.old) (table_of self.new) log.old log.new }
        ensures few { (size_of (table_of self.new) ≡ size_of (table_of self.old))
            ⊎ ((table_of self.old).clients ≤ size_of (table_of self.new) + count) }
        ensures enough { IfOk result (λ _. HasRoomFor count (table_of self.new)) }
        ensures error { IfErr result (λ _. (table_of self.old).clients < size_of (table_of self.old) + count) }
        ensures kept { IfErr result (λ _. (self.new ≡ self.old) × (log.new ≡ log.old)) }
    {
        self.table.make_places(self.alloc, count, now, log)
    }

    /// Closes the connection whose response takes the most memory, if the responses take more than 33,554,432 bytes.
    /// Afterwards they take less.
    pub fn free_memory<L: Log>(&mut self, now: u64, log: &mut L)
        ensures history { KeepsHistory S.wanted S.responses S.sites self.old self.new }
        ensures later { IsLater S.wanted S.responses S.sites self.old self.new }
        ensures within { bytes_held (table_of self.new) ≤ held_limit }
        ensures removed { held_limit < bytes_held (table_of self.old) → (key : ℕ)
            × IsFirstToClose Shortage.Memory (table_of self.old) key
            × IsRemoved L.records key CloseCause.Unread now (table_of self.old) (table_of self.new) log.old log.new }
        ensures kept { bytes_held (table_of self.old) ≤ held_limit → (self.new ≡ self.old) × (log.new ≡ log.old) }
    {
        self.table.free_memory(now, log);
    }

    fn make_room_if_full<L: Log>(&mut self, now: u64, log: &mut L)
        ensures history { KeepsHistory S.wanted S.responses S.sites self.old self.new }
        ensures room { most_of self.new.feed ≡ most_of self.old.feed }
    {
        if self.table.is_full() {
            self.make_room(now, log);
        }
    }

    /// Adds a connection that was accepted now, and returns its key. If there are as many connections as there may be,
    /// closes another one for it. Returns none if there may be none.
    pub fn accept<L: Log>(&mut self, accepted: NewConnection<T>, log: &mut L) -> Option<usize>
        ensures history { (history : List (NodeEvent S.Sites))
            → HasHistory S.wanted S.responses S.sites self.old history
            → HasHistory S.wanted S.responses S.sites self.new (accepted_in result history) }
        ensures later { IsLater S.wanted S.responses S.sites self.old self.new }
    {
        self.make_room_if_full(accepted.now, log);
        if self.table.is_full() {
            return None;
        }
        let key = self.table.insert(self.alloc, accepted, log);
        Some(key)
    }

    /// Registers the stream of a connection for events under its key. Returns whether that succeeded.
    pub fn register(&mut self, key: usize, registry: &T::Registry) -> bool
        ensures history { KeepsHistory S.wanted S.responses S.sites self.old self.new }
        ensures later { IsLater S.wanted S.responses S.sites self.old self.new }
    {
        self.table.register(key, registry)
    }

    /// Notes that the registry reported an event of a connection, and whether its peer has ended its side by then.
    pub fn note_event(&mut self, key: usize, has_ended: bool)
        ensures history { KeepsHistory S.wanted S.responses S.sites self.old self.new }
        ensures later { IsLater S.wanted S.responses S.sites self.old self.new }
    {
        self.table.note_event(key, has_ended);
    }

    /// Takes the key of the connection that a turn serves next, as `Table::next_ready` does.
    pub fn next_ready(&mut self, rest: &mut TurnRest, is_over: bool) -> Option<usize>
        ensures history { KeepsHistory S.wanted S.responses S.sites self.old self.new }
        ensures later { IsLater S.wanted S.responses S.sites self.old self.new }
        ensures taken { IsTaken result (table_of self.old).ready (table_of self.new).ready }
        ensures first { MayServe is_over rest.old.fresh (fresh_ring (table_of self.old).ready)
            → IsSomeAnd result (λ key. IsFromFresh key (table_of self.old).ready (table_of self.new).ready) }
        ensures second { MayServe is_over rest.old.behind (behind_ring (table_of self.old).ready)
            → IsSomeAnd result (λ key. IsFromFresh key (table_of self.old).ready (table_of self.new).ready
            ⊎ IsFromBehind key (table_of self.old).ready (table_of self.new).ready) }
        ensures some { MayServe is_over rest.old.spare (spare_keys (table_of self.old).ready) → IsSome result }
        ensures served { rest.new.behind.has_served ≡ true → (rest.old.behind.has_served ≡ true)
            ⊎ IsSomeAnd result (λ key. IsFromBehind key (table_of self.old).ready (table_of self.new).ready) }
        ensures less { IfSome result (λ _. rest.new.fresh.left + rest.new.behind.left + rest.new.spare.left
            < rest.old.fresh.left + rest.old.behind.left + rest.old.spare.left) }
        ensures kept { ((rest.new.fresh ≡ rest.old.fresh)
            ⊎ IsSomeAnd result (λ key. IsFromFresh key (table_of self.old).ready (table_of self.new).ready))
            × ((rest.new.behind ≡ rest.old.behind)
            ⊎ IsSomeAnd result (λ key. IsFromBehind key (table_of self.old).ready (table_of self.new).ready)) }
    {
        self.table.next_ready(rest, is_over)
    }

    /// Marks a connection as ready, so that a turn serves it.
    pub fn mark_ready(&mut self, key: usize)
        ensures history { KeepsHistory S.wanted S.responses S.sites self.old self.new }
        ensures later { IsLater S.wanted S.responses S.sites self.old self.new }
        ensures marked { (peer : Peer T) → peer_at (table_of self.old) key ≡ Some peer
            → IsReadyAfter key peer (table_of self.old) (table_of self.new) }
    {
        self.table.mark_ready(key);
    }

    /// Removes a connection for a cause, and records that. Returns its stream.
    pub fn remove<L: Log>(
        &mut self,
        key: usize,
        cause: CloseCause,
        now: u64,
        log: &mut L,
    ) -> Option<T>
        ensures history { KeepsHistory S.wanted S.responses S.sites self.old self.new }
        ensures later { IsLater S.wanted S.responses S.sites self.old self.new }
        ensures removed { IsSome (peer_at (table_of self.old) key)
            → IsRemoved L.records key cause now (table_of self.old) (table_of self.new) log.old log.new }
    {
        self.table.remove(key, cause, now, log)
    }

    /// Advances the clocks of all connections, and removes those that are out of time.
    pub fn advance_clock<L: Log>(&mut self, now: u64, log: &mut L)
        ensures history { (history : List (NodeEvent S.Sites))
            → HasHistory S.wanted S.responses S.sites self.old history
            → (millis : ℕ → ℕ) × HasHistory S.wanted S.responses S.sites self.new (Passed millis ∷ history) }
        ensures later { IsLater S.wanted S.responses S.sites self.old self.new }
        ensures expired { IsExpired now (table_of self.old) (table_of self.new) }
        ensures closed { HasClosed L.records CloseCause.TimedOut (table_of self.old) (table_of self.new)
            log.old log.new }
    {
        self.table.advance_clock(now, log);
    }
}

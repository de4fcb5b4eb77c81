//! A share of a turn: a connection receives, responds and sends.
ghost use Rattle.std.specs.Prelude.{◌≡◌, ◌≢◌, ◌≤◌, ◌<◌, ◌||◌, true, false, List, Some, is_some, option_copied};
ghost use Rattle.node_machine.specs.NodeEvents.{NodeEvent};
ghost use Rattle.node_machine.specs.Nodes.{table_of, HasHistory, HasServed, HasAsked, HasAdvanced, IsLater};
ghost use Rattle.node_machine.specs.Nodes.{KeepsRest, HasNoted};
ghost use Rattle.node_table.specs.declared.peer.Peer.{Peer};
ghost use Rattle.node_table.specs.Peers.{held_limit};
ghost use Rattle.node_table.specs.Tables.{awaits_request_at, bytes_held, lingers_at, peer_at, IsSettled};
ghost use Rattle.node_table.specs.Tables.{HasHungUp, HasMovedAt, HasReceivedAt, HasReceivedFor, HasUsedAt};
ghost use Rattle.node_table.specs.Tables.{IsReadyAfter, IsReadyForClient};

use crate::machine::NodeMachine;
use crate::occasion::{FeedRespond, MomentResponder};
use feed_keep::Keep;
use node_connection::{Progress, Share, TURN_SHARE};
use node_request::{FetchPolicy, fetch_to_begin, sites_to_read};
use node_table::{Log, Outcome, Stream, Turn};

// The share of a connection that receives its next request, and does not respond to it yet.
const READ_SHARE: Share = Share {
    bytes: 16_384,
    responses: 0,
};

impl<'a, T: Stream, K: Keep, S: FeedRespond + Drop> NodeMachine<'a, T, K, S> {
    // Returns who may make the node fetch or read its folder now. A fetch that was requested excludes another one, too.
    fn policy(&self) -> FetchPolicy<'a>
        ensures token { result.token ≡ option_copied self.now.token }
        ensures busy { result.is_busy ≡ (is_some self.now.fetching || is_some self.now.requested) }
        ensures reloading { result.is_reloading ≡ is_some self.now.reload }
    {
        FetchPolicy {
            token: self.token,
            is_busy: self.fetching.is_some() || self.requested.is_some(),
            is_reloading: self.reload.is_some(),
        }
    }

    // Gives a connection a share of the turn, in which it responds from the feed as it is.
    fn serve_from_feed(
        &mut self,
        turn: Turn,
        is_local: bool,
        buffer: &mut [u8],
        share: &mut Share,
    ) -> Progress
        requires { bytes_held (table_of self.old) ≤ held_limit }
        ensures history { (history : List (NodeEvent S.Sites))
            → HasHistory S.wanted S.responses S.sites self.old history
            → HasServed S.wanted S.responses S.sites turn.key self.new history }
        ensures rest { KeepsRest turn.key self.old self.new }
        ensures requested { self.new.requested ≡ self.old.requested }
        ensures reload { self.new.reload ≡ self.old.reload }
        ensures moved { HasMovedAt turn.key (table_of self.old) (table_of self.new) }
        ensures used { HasUsedAt turn.key result share.old share.new (table_of self.old) (table_of self.new) }
        ensures received { HasReceivedAt T.has_blocked turn.key result (table_of self.new) }
        ensures still { result ≢ Progress.Moved }
    {
        let policy = self.policy();
        let moment = MomentResponder::new(
            &self.responder,
            &self.feed,
            policy,
            is_local,
            self.today,
        );
        self.table
            .serve_peer(turn, self.alloc, &moment, buffer, share)
    }

    // Notes what the request of a connection makes the node do, if its response is streamed: to fetch a release, or to
    // read its folder.
    fn note_request(&mut self, key: usize)
        ensures history { (history : List (NodeEvent S.Sites))
            → HasHistory S.wanted S.responses S.sites self.old history
            → HasAsked S.wanted S.responses S.sites key self.new history }
        ensures noted { HasNoted key self.old self.new }
        ensures rest { KeepsRest key self.old self.new }
    {
        let Some(received) = self.table.streamed_request(key) else {
            return;
        };
        let policy = self.policy();
        if let Some(asked) = fetch_to_begin(self.alloc, &received, &policy) {
            self.requested = Some(asked);
        } else if let Some(asked) = sites_to_read(&received, &policy) {
            self.reload = Some(asked);
        }
    }

    /// Gives a connection a share of the turn: it receives, responds and sends until its stream would block, a response
    /// was sent, or the share is used. The responses are those to the feed as it is. A request that has the token may
    /// ask for a release, which is to be fetched next, or that the folder of site files be read. `free_memory` was
    /// called before, so that the response is the only one past the limit. `is_local` is whether the client is on the
    /// same machine.
    pub fn serve_share(
        &mut self,
        turn: Turn,
        is_local: bool,
        buffer: &mut [u8],
        share: &mut Share,
    ) -> Progress
        requires { bytes_held (table_of self.old) ≤ held_limit }
        ensures history { (history : List (NodeEvent S.Sites))
            → HasHistory S.wanted S.responses S.sites self.old history
            → HasAdvanced S.wanted S.responses S.sites turn.key self.new history }
        ensures noted { share.new.responses < share.old.responses → HasNoted turn.key self.old self.new }
        ensures later { IsLater S.wanted S.responses S.sites self.old self.new }
        ensures rest { KeepsRest turn.key self.old self.new }
    {
        let replies = share.responses;
        let progress = self.serve_from_feed(turn, is_local, buffer, share);
        if share.responses < replies {
            self.note_request(turn.key);
        }
        progress
    }

    /// Does what follows `serve_share`, by how that ended: records a response that was sent, marks the connection as
    /// ready if it has more to do, and removes it if it is over.
    pub fn settle<L: Log>(
        &mut self,
        key: usize,
        progress: Progress,
        now: u64,
        log: &mut L,
    ) -> Outcome
        ensures history { (history : List (NodeEvent S.Sites))
            → HasHistory S.wanted S.responses S.sites self.old history
            → HasServed S.wanted S.responses S.sites key self.new history }
        ensures later { IsLater S.wanted S.responses S.sites self.old self.new }
        ensures rest { KeepsRest key self.old self.new }
        ensures settled { IsSettled L.records key progress now result (table_of self.old) (table_of self.new)
            log.old log.new }
    {
        self.table.settle(key, progress, now, log)
    }

    /// Has a connection whose peer is a proxy receive its next request, and wait for its turn in the queue of the
    /// client that the request names. It does not respond yet. A connection that does not wait for a request is marked
    /// as ready.
    pub fn receive_for_client<L: Log>(&mut self, turn: Turn, buffer: &mut [u8], log: &mut L)
        requires { bytes_held (table_of self.old) ≤ held_limit }
        ensures later { IsLater S.wanted S.responses S.sites self.old self.new }
        ensures received { awaits_request_at (table_of self.old) turn.key ≡ true → HasReceivedFor L.records
            T.has_blocked turn.key turn.now (table_of self.old) (table_of self.new) log.old log.new }
        ensures marked { (peer : Peer T) → peer_at (table_of self.old) turn.key ≡ Some peer
            → awaits_request_at (table_of self.old) turn.key ≡ false
            → IsReadyAfter turn.key peer (table_of self.old) (table_of self.new) }
    {
        if !self.table.awaits_request(turn.key) {
            self.mark_ready(turn.key);
            return;
        }
        let mut share = READ_SHARE;
        let progress = self.serve_from_feed(turn, false, buffer, &mut share);
        let _ = self.follow_receiving(turn, progress, log);
    }

    // Does what follows the share in which a connection received its next request, by how that ended.
    fn follow_receiving<L: Log>(&mut self, turn: Turn, progress: Progress, log: &mut L) -> Outcome
        ensures later { IsLater S.wanted S.responses S.sites self.old self.new }
        ensures ready { progress ≡ Progress.Spent → (peer : Peer T) → peer_at (table_of self.old) turn.key ≡ Some peer
            → IsReadyForClient turn.key peer (table_of self.old) (table_of self.new) }
        ensures settled { progress ≡ Progress.Blocked → IsSettled L.records turn.key progress turn.now result
            (table_of self.old) (table_of self.new) log.old log.new }
    {
        if progress == Progress::Spent {
            self.mark_for_client(turn.key);
            Outcome::Ready
        } else {
            self.settle(turn.key, progress, turn.now, log)
        }
    }

    // Marks a connection as ready in the queue of the client whose request it holds.
    fn mark_for_client(&mut self, key: usize)
        ensures later { IsLater S.wanted S.responses S.sites self.old self.new }
        ensures marked { (peer : Peer T) → peer_at (table_of self.old) key ≡ Some peer
            → IsReadyForClient key peer (table_of self.old) (table_of self.new) }
    {
        self.table.mark_for_client(key);
    }

    /// Ends a connection that its client has closed. If its last response was sent, it has its share of the turn now:
    /// it drops what the client sent before, and is removed once it has read the end of that. A connection that is
    /// closed over unread bytes is reset, and its client loses the rest of the response. Any other connection is marked
    /// as ready.
    pub fn hang_up<L: Log>(&mut self, turn: Turn, buffer: &mut [u8], log: &mut L)
        requires { bytes_held (table_of self.old) ≤ held_limit }
        ensures later { IsLater S.wanted S.responses S.sites self.old self.new }
        ensures ended { lingers_at (table_of self.old) turn.key ≡ true → HasHungUp L.records T.has_blocked
            turn.key turn.now (table_of self.old) (table_of self.new) log.old log.new }
    {
        if !self.table.is_lingering(turn.key) {
            self.mark_ready(turn.key);
            return;
        }
        let mut share = TURN_SHARE;
        let progress = self.serve_from_feed(turn, false, buffer, &mut share);
        let _ = self.settle(turn.key, progress, turn.now, log);
    }
}

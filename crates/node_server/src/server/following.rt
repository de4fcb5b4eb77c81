//! Following the events of the poll.
ghost use Rattle.std.specs.Prelude.{◌≡◌, ◌≤◌, ◌-◌, true, MatchBool, Some};
ghost use Rattle.node_machine.specs.Nodes.{table_of, IsLater};
ghost use Rattle.node_server.specs.Proxies.{IsClient, IsProxy};
ghost use Rattle.node_table.specs.Peers.{held_limit};
ghost use Rattle.node_table.specs.Tables.{awaits_request_at, bytes_held, peer_at, HasReceivedFor, IsReadyAfter};
ghost use Rattle.node_table.specs.declared.peer.Peer.{Peer};

use crate::server::{LISTENER, ServedNode, Server};
use crate::socket::{Socket, is_local};
use feed_keep::Keep;
use mio::event::Event;
use node_machine::FeedRespond;
use node_table::{CloseCause, Log, Turn};
use std::net::SocketAddr;

impl Server {
    // Follows an event. If the client of a connection has reset it, it is removed: no response would arrive. `ends` is
    // how many connections the turn may still end before it serves those that are ready.
    pub(crate) fn on_event<K: Keep, S: FeedRespond + Drop, L: Log>(
        &mut self,
        node: &mut ServedNode<'_, K, S>,
        event: &Event,
        ends: &mut usize,
        log: &mut L,
    )
        ensures { IsLater S.wanted S.responses S.sites node.old node.new }
    {
        let token = event.token();
        if token == LISTENER {
            self.may_accept = self.is_accepting;
        } else if event.is_error() {
            let _ = node.remove(token.0, CloseCause::PeerClosed, self.now, log);
        } else {
            self.on_connection_event(node, event, ends, log);
        }
    }

    // Marks the connection of an event as ready, or ends it if both its sides are closed.
    fn on_connection_event<K: Keep, S: FeedRespond + Drop, L: Log>(
        &mut self,
        node: &mut ServedNode<'_, K, S>,
        event: &Event,
        ends: &mut usize,
        log: &mut L,
    )
        ensures { IsLater S.wanted S.responses S.sites node.old node.new }
    {
        let key = event.token().0;
        node.note_event(key, event.is_read_closed());
        if event.is_write_closed() {
            self.end_closed(node, key, ends, log);
        } else {
            self.mark_ready(node, key, log);
        }
    }

    // Ends a connection whose sides are both closed. It does not wait for its turn, and is removed once its input is
    // read to the end. If the turn has ended as many as it may, it waits for its turn as others do.
    fn end_closed<K: Keep, S: FeedRespond + Drop, L: Log>(
        &mut self,
        node: &mut ServedNode<'_, K, S>,
        key: usize,
        ends: &mut usize,
        log: &mut L,
    )
        ensures later { IsLater S.wanted S.responses S.sites node.old node.new }
        ensures counted { ends.new ≡ ends.old - 1 }
        ensures spent { (peer : Peer Socket) → peer_at (table_of node.old) key ≡ Some peer → ends.old ≡ 0
            → ¬ (IsProxy self.old.is_forwarded peer.addr)
            → IsReadyAfter key peer (table_of node.old) (table_of node.new) }
    {
        if *ends == 0 {
            self.mark_ready(node, key, log);
            return;
        }
        *ends -= 1;
        node.free_memory(self.now, log);
        let turn = Turn { key, now: self.now };
        node.hang_up(turn, &mut self.buffer, log);
    }

    // Returns whether a peer with this address is a proxy, which states the address of its client.
    fn is_proxy(&self, addr: SocketAddr) -> bool
        ensures { MatchBool result (IsProxy self.entry.now.is_forwarded addr)
            (IsClient self.entry.now.is_forwarded addr) }
    {
        if !self.is_forwarded {
            return false;
        }
        is_local(addr)
    }

    // Marks a connection as ready. If its peer is a proxy, it receives its request first, and waits in the queue of the
    // client that the request names.
    pub(crate) fn mark_ready<K: Keep, S: FeedRespond + Drop, L: Log>(
        &mut self,
        node: &mut ServedNode<'_, K, S>,
        key: usize,
        log: &mut L,
    )
        ensures later { IsLater S.wanted S.responses S.sites node.old node.new }
        ensures own { (peer : Peer Socket) → peer_at (table_of node.old) key ≡ Some peer
            → ¬ (IsProxy self.old.is_forwarded peer.addr)
            → IsReadyAfter key peer (table_of node.old) (table_of node.new) }
        ensures client { (peer : Peer Socket) → peer_at (table_of node.old) key ≡ Some peer
            → ¬ (IsClient self.old.is_forwarded peer.addr) → bytes_held (table_of node.old) ≤ held_limit
            → awaits_request_at (table_of node.old) key ≡ true
            → HasReceivedFor L.records (λ _. Unit {0}) key self.old.now (table_of node.old) (table_of node.new)
            log.old log.new }
    {
        let Some(addr) = node.table().addr(key) else {
            return;
        };
        if self.is_proxy(addr) {
            node.free_memory(self.now, log);
            let turn = Turn { key, now: self.now };
            node.receive_for_client(turn, &mut self.buffer, log);
        } else {
            node.mark_ready(key);
        }
    }
}

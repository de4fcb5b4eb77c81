//! Accepting connections, as many as have a place.
ghost use Rattle.node_machine.specs.Nodes.{IsLater};

use crate::server::{ServedNode, Server};
use crate::socket::Socket;
use feed_keep::Keep;
use mio::net::TcpStream;
use node_machine::FeedRespond;
use node_table::{Log, NewConnection};
use std::io::ErrorKind;
use std::net::SocketAddr;

// The most connections that are accepted before others are closed for them, in one order of closing.
const BATCH: usize = 32;

// The most batches that a turn accepts before it serves those that are ready, and after.
const BATCHES: usize = 8;

/// Connections that were accepted and have no place yet.
#[derive(Drop)]
struct Accepted {
    sockets: Vec<(TcpStream, SocketAddr)>,
    /// Whether the descriptors or the memory were used up.
    has_failed: bool,
}

impl Server {
    // Accepts connections until none waits or the system refuses one. None is closed that waits for its share: then new
    // ones wait for the next turn. A flood gets a bounded share of a turn. Returns whether it used all of it.
    pub(crate) fn accept_waiting<K: Keep, S: FeedRespond + Drop, L: Log>(
        &mut self,
        node: &mut ServedNode<'_, K, S>,
        log: &mut L,
    ) -> bool
        ensures { IsLater S.wanted S.responses S.sites node.old node.new }
    {
        for _ in 0..BATCHES {
            if !self.may_accept {
                return false;
            }
            if !self.accept_batch(node, log) {
                return false;
            }
        }
        true
    }

    // Accepts as many connections as have a place, at most a batch. Closes a connection for the next one if none could
    // be accepted because the descriptors are used up. Returns whether others may be accepted now.
    fn accept_batch<K: Keep, S: FeedRespond + Drop, L: Log>(
        &mut self,
        node: &mut ServedNode<'_, K, S>,
        log: &mut L,
    ) -> bool
        ensures { IsLater S.wanted S.responses S.sites node.old node.new }
    {
        let places = node.table().places(BATCH);
        let accepted = self.take_waiting(places);
        let count = accepted.sockets.len();
        let has_failed = accepted.has_failed;
        // Without the memory for that, each connection for which there is no place closes another one.
        let _ = node.make_places(count, self.now, log);
        self.admit_all(node, accepted, log);
        let is_short = has_failed && count == 0;
        self.make_room_if(is_short, node, log);
        places != 0 && !is_short
    }

    // Closes a connection for the next one, if there was nothing left for any.
    fn make_room_if<K: Keep, S: FeedRespond + Drop, L: Log>(
        &self,
        is_short: bool,
        node: &mut ServedNode<'_, K, S>,
        log: &mut L,
    )
        ensures { IsLater S.wanted S.responses S.sites node.old node.new }
    {
        if is_short {
            node.make_room(self.now, log);
        }
    }

    // Accepts at most so many connections.
    fn take_waiting(&mut self, most: usize) -> Accepted {
        let Ok(mut sockets) = Vec::with_capacity(self.alloc, most) else {
            return Accepted {
                sockets: Vec::new(self.alloc),
                has_failed: true,
            };
        };
        let mut has_failed = false;
        for _ in 0..most {
            match self.listener.accept() {
                Ok(socket) => {
                    let _ = sockets.push(socket);
                }
                Err(fault) => match fault.kind() {
                    ErrorKind::WouldBlock => {
                        self.may_accept = false;
                        break;
                    }
                    ErrorKind::Interrupted | ErrorKind::ConnectionAborted => {}
                    _ => {
                        has_failed = true;
                        break;
                    }
                },
            }
        }
        Accepted {
            sockets,
            has_failed,
        }
    }

    // Begins new connections.
    fn admit_all<K: Keep, S: FeedRespond + Drop, L: Log>(
        &mut self,
        node: &mut ServedNode<'_, K, S>,
        accepted: Accepted,
        log: &mut L,
    )
        ensures { IsLater S.wanted S.responses S.sites node.old node.new }
    {
        for socket in accepted.sockets {
            let (stream, addr) = socket;
            self.admit(node, stream, addr, log);
        }
    }

    // Begins a new connection. Its socket is registered with the poll, and it is marked as ready: its client may have
    // sent a request already.
    pub(crate) fn admit<K: Keep, S: FeedRespond + Drop, L: Log>(
        &mut self,
        node: &mut ServedNode<'_, K, S>,
        stream: TcpStream,
        addr: SocketAddr,
        log: &mut L,
    )
        ensures { IsLater S.wanted S.responses S.sites node.old node.new }
    {
        let accepted = NewConnection {
            stream: Socket::new(stream),
            addr,
            limits: self.limits,
            now: self.now,
        };
        let Some(key) = node.accept(accepted, log) else {
            return;
        };
        self.watch(node, key, log);
        self.mark_ready(node, key, log);
    }
}

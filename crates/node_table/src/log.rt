//! The trait `Log`, which records the connections of a node, and why a connection is closed.
use node_connection::Connection;
use std::net::SocketAddr;

/// Why a connection is closed.
#[derive(Clone, Copy, Debug, PartialEq, Eq)]
pub enum CloseCause {
    /// Its last response was sent whole.
    Complete,
    /// The peer closed its side before that, or a read, a write or an allocation failed.
    PeerClosed,
    /// Its time limit passed before that.
    TimedOut,
    /// Another connection needs its place.
    Evicted,
    /// Its response took the most memory of all, past the limit.
    Unread,
    /// The head of its streamed response was sent. The body is sent without the connection.
    Streamed,
}

/// A log of the connections. Times are in microseconds, from the last byte of a request's head to the last byte of its
/// response, or up to now while the response is under way.
pub trait Log {
    ghost use Rattle.node_table.specs.Logs.{Entry, Accepted, Responded, Closed};

    /// A call that records this entry may change the log from this value to that one.
    ghost records: { Self → Entry → Self → Type 0 } = { λ _ _ _. Unit {0} };

    /// Records that a connection is accepted.
    fn on_accept(&mut self, addr: SocketAddr)
        ensures { records self.old (Accepted addr) self.new };

    /// Records that a response was sent whole and its connection persists. The connection still has its request.
    fn on_response(&mut self, addr: SocketAddr, connection: &Connection, micros: u64)
        ensures { records self.old (Responded addr connection.now micros) self.new };

    /// Records that a connection is removed. Called once for each connection.
    fn on_close(
        &mut self,
        addr: SocketAddr,
        connection: &Connection,
        cause: CloseCause,
        micros: u64,
    )
        ensures { records self.old (Closed addr connection.now cause micros) self.new };
}

//! What a table does with the stream and the request of one connection.
ghost use Rattle.std.specs.Prelude.{◌≡◌, IfSome, IsSomeAnd, is_some};
ghost use Rattle.std.specs.Option.{option_map};
ghost use Rattle.node_connection.specs.States.{request_of};
ghost use Rattle.node_table.specs.Peers.{is_streamed};

use crate::peer::Stream;
use crate::table::Table;
use node_request::ReceivedRequest;
use std::net::SocketAddr;

impl<T: Stream> Table<T> {
    ghost use Rattle.node_table.specs.Tables.{awaits_request_at, bytes_held, lingers_at, peer_at, size_of};
    ghost use Rattle.node_table.specs.Tables.{KeepsConnections, KeepsOthers};

    /// Registers the stream of a connection for events under its key. Returns whether that succeeded.
    pub fn register(&mut self, key: usize, registry: &T::Registry) -> bool
        ensures connections { KeepsConnections self.old self.new }
        ensures others { KeepsOthers key self.old self.new }
        ensures size { size_of self.new ≡ size_of self.old }
        ensures held { bytes_held self.new ≡ bytes_held self.old }
        ensures ready { self.new.ready ≡ self.old.ready }
        ensures clients { self.new.clients ≡ self.old.clients }
    {
        match self.peers.get_mut(key) {
            Some(peer) => peer.stream.register(registry, key),
            None => false,
        }
    }

    /// Notes that the registry reported an event of a connection, and whether its peer has ended its side by then.
    pub fn note_event(&mut self, key: usize, has_ended: bool)
        ensures connections { KeepsConnections self.old self.new }
        ensures others { KeepsOthers key self.old self.new }
        ensures size { size_of self.new ≡ size_of self.old }
        ensures held { bytes_held self.new ≡ bytes_held self.old }
        ensures ready { self.new.ready ≡ self.old.ready }
        ensures clients { self.new.clients ≡ self.old.clients }
    {
        if let Some(peer) = self.peers.get_mut(key) {
            peer.stream.note_event(has_ended);
        }
    }

    /// Returns whether the last response of a connection was sent, and its client may send more.
    pub fn is_lingering(&self, key: usize) -> bool
        ensures { result ≡ lingers_at self.now key }
    {
        match self.peers.get(key) {
            Some(peer) => peer.connection.is_lingering(),
            None => false,
        }
    }

    /// Returns whether a connection waits for bytes of its next request.
    pub fn awaits_request(&self, key: usize) -> bool
        ensures { result ≡ awaits_request_at self.now key }
    {
        match self.peers.get(key) {
            Some(peer) => !peer.is_behind(),
            None => false,
        }
    }

    /// Returns the address of the peer of a connection.
    pub fn addr(&self, key: usize) -> Option<SocketAddr>
        ensures { result ≡ option_map (λ peer. peer.addr) (peer_at self.now key) }
    {
        match self.peers.get(key) {
            Some(peer) => Some(peer.addr),
            None => None,
        }
    }

    /// Returns the request of a connection whose response is streamed, from when the response is made.
    pub fn streamed_request(&self, key: usize) -> Option<ReceivedRequest<'_>>
        ensures request { IfSome result (λ received. IsSomeAnd (peer_at self.now key)
            (λ peer. received.bytes.now ≡ request_of peer.connection)) }
        ensures streamed { IfSome (peer_at self.now key)
            (λ peer. is_some result ≡ is_streamed peer.connection) }
    {
        match self.peers.get(key) {
            Some(peer) => peer.streamed_request(),
            None => None,
        }
    }
}

//! The socket of a client, which leaves out the calls that would do nothing.
ghost use Rattle.std.specs.Prelude.{MatchBool};
ghost use Rattle.node_server.specs.Proxies.{IsLocal, IsRemote};

use mio::net::TcpStream;
use mio::{Interest, Registry, Token};
use node_connection::{
    Connection, Progress, Receive, Respond, Share, Sides, Transmit, run_connection,
};
use node_table::Stream;
use std::alloc::Global;
use std::io;
use std::io::{ErrorKind, Read, Write};
use std::net::{Shutdown, SocketAddr};

/// The socket of a client.
#[derive(Drop)]
pub struct Socket {
    pub(crate) stream: TcpStream,
    /// Whether the last read took all that had arrived. Until the next event, a read would block.
    is_drained: bool,
    /// Whether the client has ended its side. No further event reports that, so each read is made.
    has_ended: bool,
    /// Whether bytes were sent.
    has_sent: bool,
    /// Whether the system sends small packets at once.
    has_nodelay: bool,
}

impl Socket {
    /// Returns the socket of a connection that was accepted.
    pub(crate) fn new(stream: TcpStream) -> Socket {
        Socket {
            stream,
            is_drained: false,
            has_ended: false,
            has_sent: false,
            has_nodelay: false,
        }
    }
}

impl Stream for Socket {
    type Registry = Registry;

    fn register(&mut self, registry: &Registry, key: usize) -> bool {
        let both = Interest::READABLE | Interest::WRITABLE;
        registry
            .register(&mut self.stream, Token(key), both)
            .is_ok()
    }

    fn note_event(&mut self, has_ended: bool) {
        self.is_drained = false;
        self.has_ended = self.has_ended || has_ended;
    }

    fn shut_down(&self) {
        let _ = self.stream.shutdown(Shutdown::Write);
    }

    fn transfer<S: Respond>(
        &mut self,
        connection: &mut Connection,
        alloc: Global,
        responder: &S,
        buffer: &mut [u8],
        share: &mut Share,
    ) -> Progress {
        let mut sides = Sides {
            reader: SocketReader {
                stream: &self.stream,
                is_drained: self.is_drained,
                has_ended: self.has_ended,
            },
            writer: SocketWriter {
                stream: &self.stream,
                has_sent: self.has_sent,
                has_nodelay: self.has_nodelay,
            },
        };
        let progress = run_connection(connection, alloc, responder, &mut sides, buffer, share);
        self.is_drained = sides.reader.is_drained;
        self.has_sent = sides.writer.has_sent;
        self.has_nodelay = sides.writer.has_nodelay;
        progress
    }
}

/// The receiving side of a socket. After a read that was given less than it asked for, the next one would block until
/// an event reports more, so it is left out.
#[derive(Drop)]
struct SocketReader<'a> {
    stream: &'a TcpStream,
    is_drained: bool,
    has_ended: bool,
}

impl<'a> Receive for SocketReader<'a> {
    fn read(&mut self, buffer: &mut [u8]) -> io::Result<usize> {
        if self.is_drained {
            return Err(io::Error::from(ErrorKind::WouldBlock));
        }
        let mut stream = self.stream;
        let count = stream.read(buffer)?;
        self.is_drained = count < buffer.len() && !self.has_ended;
        Ok(count)
    }
}

/// The sending side of a socket. From the second write on, the system would hold a small packet back until the client
/// acknowledges the one before it (RFC 1122, section 4.2.3.4), so that is switched off then.
#[derive(Drop)]
struct SocketWriter<'a> {
    stream: &'a TcpStream,
    has_sent: bool,
    has_nodelay: bool,
}

impl<'a> Transmit for SocketWriter<'a> {
    fn write(&mut self, bytes: &[u8]) -> io::Result<usize> {
        if self.has_sent && !self.has_nodelay {
            let _ = self.stream.set_nodelay(true);
            self.has_nodelay = true;
        }
        self.has_sent = true;
        let mut stream = self.stream;
        stream.write(bytes)
    }
}

/// Returns whether an address is a loopback address (RFC 1122, section 3.2.1.3; RFC 4291, section 2.5.3), also one of
/// IPv4 in IPv6.
pub fn is_local(addr: SocketAddr) -> bool
    ensures { MatchBool result (IsLocal addr) (IsRemote addr) }
{
    addr.ip().to_canonical().is_loopback()
}

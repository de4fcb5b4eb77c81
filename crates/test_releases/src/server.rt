//! A server in memory, and the connections to it.
ghost use Rattle.std.specs.Prelude.{None};
ghost use Rattle.feed_dial.specs.Responses.{Unknown};

use feed_dial::{Dial, DialFault};
use feed_http::{MemoryShelf, NamedFile, serve_one};
use std::alloc::Global;
use std::cell::RefCell;
use std::io;
use std::io::{Cursor, ErrorKind, Read, Write};

// The most bytes that a read or a write moves.
const STEP: usize = 64;

/// How the server treats one connection.
#[derive(Drop)]
pub enum ServerTurn {
    /// Serves these files.
    Serve(Vec<NamedFile>),
    /// Serves them as if the `Range: ..` line of a request were this text.
    ServeAs(Vec<NamedFile>, Vec<u8>),
    /// Serves them, and drops this many bytes at the end of the reply.
    Cut(Vec<NamedFile>, usize),
    /// Replies with `HTTP/1.1 ` and these bytes.
    Say(Vec<u8>),
    /// Serves them, and fails at the read of this number, counted from 1.
    FailRead(Vec<NamedFile>, usize),
    /// Fails at the write of this number, counted from 1.
    FailWrite(usize),
    /// Refuses the connection.
    Refuse(DialFault),
}

impl ServerTurn {
    fn reply(&self, alloc: Global, request: &[u8]) -> io::Result<Vec<u8>> {
        let mut reply = Vec::new(alloc);
        match self {
            ServerTurn::Serve(files) | ServerTurn::FailRead(files, _) => {
                serve(alloc, files, request, &mut reply)?;
            }
            ServerTurn::ServeAs(files, range) => {
                serve(
                    alloc,
                    files,
                    &with_range(alloc, request, range)?,
                    &mut reply,
                )?;
            }
            ServerTurn::Cut(files, count) => {
                serve(alloc, files, request, &mut reply)?;
                reply.truncate(reply.len().saturating_sub(*count));
            }
            ServerTurn::Say(text) => {
                reply.extend_from_slice(b"HTTP/1.1 ")?;
                reply.extend_from_slice(text)?;
            }
            ServerTurn::FailWrite(_) | ServerTurn::Refuse(_) => {}
        }
        Ok(reply)
    }
}

fn serve(
    alloc: Global,
    files: &[NamedFile],
    mut request: &[u8],
    reply: &mut Vec<u8>,
) -> io::Result<()> {
    match serve_one(alloc, &mut request, reply, &mut MemoryShelf { files }) {
        Ok(_) => Ok(()),
        Err(_) => Err(io::Error::from(ErrorKind::Other)),
    }
}

// Returns the request with another line in place of its `Range: ..`.
fn with_range(alloc: Global, request: &[u8], range: &[u8]) -> io::Result<Vec<u8>> {
    let mut text = Vec::new(alloc);
    for line in request.split_inclusive(|byte| *byte == b'\n') {
        let is_range = line.starts_with(b"Range:");
        text.extend_from_slice(if is_range { range } else { line })?;
    }
    Ok(text)
}

/// A connection to the server, which records the request and replies at the first read.
#[derive(Drop)]
pub struct Conn<'a> {
    alloc: Global,
    turn: &'a ServerTurn,
    requests: &'a RefCell<Vec<u8>>,
    request: Vec<u8>,
    reply: Cursor<Vec<u8>>,
    writes: usize,
    reads: usize,
}

impl Conn<'_> {
    fn record_request(&self) -> io::Result<()> {
        let Ok(mut requests) = self.requests.try_borrow_mut() else {
            return Err(io::Error::from(ErrorKind::Other));
        };
        requests.extend_from_slice(b"connection\n")?;
        Ok(requests.extend_from_slice(&self.request)?)
    }
}

impl Read for Conn<'_> {
    ghost remaining = { λ _. None };

    fn read(&mut self, buf: &mut [u8]) -> io::Result<usize> {
        self.reads = self.reads.saturating_add(1);
        if let ServerTurn::FailRead(_, number) = self.turn
            && *number == self.reads
        {
            return Err(io::Error::from(ErrorKind::ConnectionReset));
        }
        if self.reads == 1 {
            self.record_request()?;
            self.reply = Cursor::new(self.turn.reply(self.alloc, &self.request)?);
        }
        let count = STEP.min(buf.len());
        self.reply.read(&mut buf[..count])
    }
}

impl Write for Conn<'_> {
    fn write(&mut self, buf: &[u8]) -> io::Result<usize> {
        self.writes = self.writes.saturating_add(1);
        if let ServerTurn::FailWrite(number) = self.turn
            && *number == self.writes
        {
            return Err(io::Error::from(ErrorKind::BrokenPipe));
        }
        let count = STEP.min(buf.len());
        self.request.extend_from_slice(&buf[..count])?;
        Ok(count)
    }

    fn flush(&mut self) -> io::Result<()> {
        Ok(())
    }
}

/// A server with a turn for each connection. The last turn counts for all further ones. It records the requests to
/// which it replies, each after the line `connection`.
#[derive(Drop)]
pub struct ScriptedServer<'a> {
    alloc: Global,
    turns: &'a [ServerTurn],
    requests: &'a RefCell<Vec<u8>>,
    before: usize,
    last_fault: Option<DialFault>,
}

impl<'a> ScriptedServer<'a> {
    pub fn new(
        alloc: Global,
        turns: &'a [ServerTurn],
        requests: &'a RefCell<Vec<u8>>,
    ) -> ScriptedServer<'a> {
        ScriptedServer {
            alloc,
            turns,
            requests,
            before: 0,
            last_fault: None,
        }
    }

    // Returns how the next connection is treated, unless it is refused.
    fn next_turn(&mut self) -> Result<&'a ServerTurn, DialFault> {
        let last = self.turns.len().saturating_sub(1);
        let Some(turn) = self.turns.get(self.before.min(last)) else {
            return Err(DialFault::Connect);
        };
        self.before = self.before.saturating_add(1);
        match turn {
            ServerTurn::Refuse(fault) => Err(*fault),
            _ => Ok(turn),
        }
    }
}

impl<'a> Dial for ScriptedServer<'a> {
    type Conn = Conn<'a>;

    ghost responses = { Unknown };

    ghost last_fault = { λ server. server.last_fault };

    ghost answers = { λ _ _. tt };

    fn dial(&mut self) -> Result<Conn<'a>, DialFault> {
        let turn = self.next_turn();
        self.last_fault = turn.err();
        Ok(Conn {
            alloc: self.alloc,
            turn: turn?,
            requests: self.requests,
            request: Vec::new(self.alloc),
            reply: Cursor::new(Vec::new(self.alloc)),
            writes: 0,
            reads: 0,
        })
    }
}

//! A request to another server and its response, over a non-blocking socket.
ghost use Rattle.std.specs.Prelude.{◌≤◌, vec_len};

use mio::net::TcpStream;
use std::alloc::{AllocGlobal, Global};
use std::io;
use std::io::{ErrorKind, Read, Write};
use std::net::{Net, SocketAddr};

// The most bytes that are received in one turn, and the most reads or writes of one.
const READ_BYTES: usize = 65_536;

const READS: usize = 16;

// The bytes for which a request may take a second longer.
const BYTES_PER_SECOND: usize = 65_536;

/// A request to another server, and the bytes of its response that were received and not yet taken.
#[derive(Drop)]
pub struct OutgoingRequest {
    pub(crate) stream: TcpStream,
    request: Vec<u8>,
    sent: usize,
    buffer: Vec<u8>,
    /// How many bytes of the response are at the front of the buffer.
    received: usize,
    /// How many it may have before they are taken.
    room: usize,
    /// The bytes sent and received since the time was last extended.
    moved: usize,
    /// The milliseconds that are left.
    time_left: u64,
    is_over: bool,
    fault: Option<ErrorKind>,
    ghost within: { sent ≤ vec_len request },
    ghost fits: { room ≤ vec_len buffer },
    ghost filled: { received ≤ room },
}

impl OutgoingRequest {
    /// Begins to connect. Nothing is sent yet. The request and its response may take `limit` milliseconds, and a second
    /// more for each 65,536 bytes that move.
    pub fn begin<R: Net + AllocGlobal>(
        rt: &R,
        addr: SocketAddr,
        limit: u64,
        request: Vec<u8>,
    ) -> io::Result<OutgoingRequest> {
        let alloc = rt.alloc();
        let buffer = Vec::from_elem(alloc, 0, READ_BYTES)?;
        let stream = TcpStream::connect(rt, addr)?;
        Ok(OutgoingRequest {
            stream,
            request,
            sent: 0,
            buffer,
            received: 0,
            room: READ_BYTES,
            moved: 0,
            time_left: limit,
            is_over: false,
            fault: None,
        })
    }

    /// Returns the bytes of the response that were received and not yet taken, at most 65,536.
    pub fn received(&self) -> &[u8] {
        &self.buffer[..self.received]
    }

    /// Discards these bytes, which were taken. At most `room` more are then received before the next call.
    pub fn discard(&mut self, room: usize) {
        self.received = 0;
        self.room = room.min(self.buffer.len());
    }

    /// Returns whether the server ended the connection, or there was an error.
    pub fn is_over(&self) -> bool {
        self.is_over
    }

    /// Returns the error that ended the request, if one did.
    pub fn fault(&self) -> Option<ErrorKind> {
        self.fault
    }

    /// Returns whether the server accepted any byte of the request.
    pub fn has_sent(&self) -> bool {
        self.sent > 0
    }

    fn end(&mut self, fault: Option<ErrorKind>) {
        self.is_over = true;
        self.fault = fault;
    }

    // Extends the time for bytes that were sent or received.
    fn extend_time(&mut self, count: usize) {
        self.moved = self.moved.saturating_add(count);
        if self.moved >= BYTES_PER_SECOND {
            let seconds = (self.moved / BYTES_PER_SECOND) as u64;
            self.time_left = self.time_left.saturating_add(seconds.saturating_mul(1_000));
            self.moved %= BYTES_PER_SECOND;
        }
    }

    /// Takes milliseconds off the time, and ends the request if none are left.
    pub fn advance_clock(&mut self, millis: u64) {
        if self.is_over {
            return;
        }
        if millis >= self.time_left {
            self.end(Some(ErrorKind::TimedOut));
        } else {
            self.time_left -= millis;
        }
    }

    /// Sends and receives until the socket would block, the request is over, or its share of the turn is used. Returns
    /// whether more may be received at once.
    pub fn exchange(&mut self) -> bool {
        for _ in 0..READS {
            if self.is_over || !self.step() {
                return false;
            }
        }
        true
    }

    // Returns whether to continue.
    fn step(&mut self) -> bool {
        let moved = if self.sent < self.request.len() {
            self.send()
        } else {
            self.receive()
        };
        match moved {
            Ok(count) => {
                self.extend_time(count);
                true
            }
            Err(fault) => match fault.kind() {
                ErrorKind::WouldBlock => false,
                ErrorKind::Interrupted => true,
                kind => {
                    self.end(Some(kind));
                    false
                }
            },
        }
    }

    fn send(&mut self) -> io::Result<usize> {
        let count = (&self.stream).write(&self.request[self.sent..])?;
        if count == 0 {
            return Err(io::Error::from(ErrorKind::WriteZero));
        }
        self.sent += count;
        Ok(count)
    }

    fn receive(&mut self) -> io::Result<usize> {
        if self.received >= self.room {
            return Ok(0);
        }
        let count = (&self.stream).read(&mut self.buffer[self.received..self.room])?;
        self.received += count.min(self.room - self.received);
        if count == 0 {
            self.end(None);
        }
        Ok(count)
    }
}

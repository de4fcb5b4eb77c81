//! A response whose head was sent, and whose body is sent line by line as a fetch, or the reading of the folder of site
//! files, proceeds.
ghost use Rattle.std.specs.Prelude.{◌≤◌, vec_len};

use mio::net::TcpStream;
use std::alloc::Global;
use std::io::{ErrorKind, Read, Write};
use std::net::Shutdown;

// The most bytes that wait to be sent. A client that lets more accumulate is too slow, and is dropped.
const PENDING_LIMIT: usize = 65_536;

// The most reads of one turn.
const READS: usize = 16;

/// The work of a node that the body of a streamed response reports.
#[derive(Clone, Copy, Debug, PartialEq, Eq)]
pub enum StreamKind {
    /// The fetch of a release.
    Fetch,
    /// The reading of the folder of site files.
    Sites,
}

/// A client that receives such a response, until the response is complete or the client is dropped.
#[derive(Drop)]
pub(crate) struct StreamedResponse {
    kind: StreamKind,
    stream: TcpStream,
    pending: Vec<u8>,
    sent: usize,
    /// Whether the body is complete.
    is_finished: bool,
    /// Whether all was sent, and the writing side was shut down.
    is_shut_down: bool,
    /// Whether the client may send more. Those bytes are read and dropped, since closing over unread bytes may lose the
    /// end of the response (RFC 9112, section 9.6).
    may_receive: bool,
    /// Whether the client failed or was too slow.
    is_dropped: bool,
    /// The milliseconds in which the client accepted nothing, though there was something to send.
    stalled: u64,
    limit: u64,
    ghost within: { sent ≤ vec_len pending },
}

impl StreamedResponse {
    pub(crate) fn new(
        alloc: Global,
        kind: StreamKind,
        stream: TcpStream,
        limit: u64,
    ) -> StreamedResponse {
        StreamedResponse {
            kind,
            stream,
            pending: Vec::new(alloc),
            sent: 0,
            is_finished: false,
            is_shut_down: false,
            may_receive: true,
            is_dropped: false,
            stalled: 0,
            limit,
        }
    }

    /// Appends a text to the body if it is about this, and not complete.
    pub(crate) fn append(&mut self, kind: StreamKind, text: &[u8]) {
        if self.kind != kind || self.is_finished || self.is_dropped {
            return;
        }
        let has_room = self.pending.len() <= PENDING_LIMIT
            && text.len() <= PENDING_LIMIT - self.pending.len();
        if !has_room || self.pending.extend_from_slice(text).is_err() {
            self.is_dropped = true;
        }
    }

    /// Completes the body if it is about this.
    pub(crate) fn finish(&mut self, kind: StreamKind) {
        if self.kind == kind {
            self.is_finished = true;
        }
    }

    /// Adds milliseconds to the time in which the client accepted nothing, and drops it past the limit.
    pub(crate) fn advance_clock(&mut self, millis: u64) {
        if self.pending.is_empty() && !self.is_shut_down {
            return;
        }
        self.stalled = self.stalled.saturating_add(millis);
        if self.stalled >= self.limit {
            self.is_dropped = true;
        }
    }

    /// Returns whether nothing is left to do.
    pub(crate) fn is_over(&self) -> bool {
        self.is_dropped || (self.is_shut_down && !self.may_receive)
    }

    /// Discards what the client sends, and sends what is pending, until the socket would block.
    pub(crate) fn send_more(&mut self, buffer: &mut [u8]) {
        for _ in 0..READS {
            if !self.discard_input(buffer) {
                break;
            }
        }
        for _ in 0..u64::MAX {
            if !self.send() {
                break;
            }
        }
        if self.is_finished && self.pending.is_empty() && !self.is_shut_down {
            self.is_shut_down = true;
            let _ = self.stream.shutdown(Shutdown::Write);
        }
    }

    // Returns whether to continue.
    fn discard_input(&mut self, buffer: &mut [u8]) -> bool {
        if !self.may_receive {
            return false;
        }
        match (&self.stream).read(buffer) {
            Ok(0) => {
                self.may_receive = false;
                false
            }
            Ok(_) => true,
            Err(fault) => self.handle_error(fault.kind()),
        }
    }

    // Returns whether to continue.
    fn send(&mut self) -> bool {
        if self.is_dropped || self.pending.is_empty() {
            return false;
        }
        match (&self.stream).write(&self.pending[self.sent..]) {
            Ok(count) => {
                self.sent += count;
                self.stalled = 0;
                if self.sent == self.pending.len() {
                    self.sent = 0;
                    self.pending.clear();
                }
                count > 0
            }
            Err(fault) => self.handle_error(fault.kind()),
        }
    }

    // Returns whether to try again at once. An error other than `WouldBlock` or `Interrupted` drops the client.
    fn handle_error(&mut self, fault: ErrorKind) -> bool {
        match fault {
            ErrorKind::WouldBlock => false,
            ErrorKind::Interrupted => true,
            _ => {
                self.is_dropped = true;
                false
            }
        }
    }
}

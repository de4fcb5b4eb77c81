//! The next step of a fetch, by what has arrived of the response to its last request.
ghost use Rattle.node_service.specs.Runs.{IsLaterNode};

use crate::fetcher::FeedNode;
use feed_fetch::{FetchEnd, Stop};
use feed_http::{FilePart, StreamEnd};
use feed_http_heads::HEAD_LIMIT;
use feed_keep::Keep;
use node_file_checks::{FileCheck, Mismatch};
use node_machine::Exchange;
use node_server::OutgoingRequest;
use std::alloc::Global;
use std::io::ErrorKind;

// The least bytes of a part of a whole file, unless it ends before.
const PART_LEAST: u64 = 65_536;

/// The next step of a fetch.
#[derive(Clone, Copy)]
pub enum FetchStep {
    /// Waits for more bytes.
    Wait,
    /// Takes the part of a whole file that has arrived.
    Part,
    /// Takes the response.
    Reply,
    /// Takes the end of the connection, and then the response.
    Close(StreamEnd),
    /// Looks again, since a part was taken.
    Again,
    /// Sends the next request.
    Send,
    /// Tries the next address of the server.
    Retry,
    /// Ends the fetch.
    End(FetchEnd),
    /// Ends the fetch, since the file is not the expected one.
    Refuse(Mismatch),
}

/// The last request of a fetch that is under way, and the checks of the file.
#[derive(Drop)]
pub struct RunningExchange {
    /// The place of the server's address in use.
    pub at: usize,
    pub check: FileCheck,
    /// How many places of the file a request may ask for.
    piece: u64,
    /// The first bytes of the response, which have its heads.
    front: Vec<u8>,
    /// Whether any part of a whole file had new bytes.
    pub is_new: bool,
}

impl RunningExchange {
    /// Begins before the first request of a fetch, by requests for at most `piece` places.
    pub fn new(alloc: Global, piece: u64, check: FileCheck) -> RunningExchange {
        RunningExchange {
            at: 0,
            check,
            piece,
            front: Vec::new(alloc),
            is_new: false,
        }
    }

    /// Begins before the response to the next request.
    pub fn restart(&mut self) {
        self.front.clear();
        self.is_new = false;
    }

    /// Passes the bytes of the response that were received to the node. If memory runs out, the type of the file is not
    /// checked.
    pub fn receive<K: Keep>(&mut self, node: &mut FeedNode<'_, K>, bytes: &[u8])
        ensures { IsLaterNode node.old node.new }
    {
        let room = HEAD_LIMIT.saturating_sub(self.front.len()).min(bytes.len());
        let _ = self.front.extend_from_slice(&bytes[..room]);
        node.receive(bytes);
    }

    // Returns how many bytes of a part are wanted before it is taken.
    fn wanted(&self, part: &FilePart<'_>) -> u64 {
        part.length
            .saturating_sub(part.first)
            .min(self.piece.max(PART_LEAST))
    }

    /// Returns how many bytes may be received before the next look.
    pub fn room<K: Keep>(&self, node: &FeedNode<'_, K>) -> usize {
        match node.part() {
            Some(part) => (self.wanted(&part) as usize).saturating_sub(part.bytes.len()),
            None => usize::MAX,
        }
    }

    fn look_at_part(&self, part: &FilePart<'_>, end: Option<StreamEnd>) -> FetchStep {
        let wanted = self.wanted(part);
        if wanted == 0 {
            return if self.is_new {
                FetchStep::Send
            } else {
                FetchStep::End(FetchEnd::Stopped(Stop::NoProgress))
            };
        }
        if part.bytes.len() as u64 >= wanted || (end.is_some() && !part.bytes.is_empty()) {
            return FetchStep::Part;
        }
        wait_or_close(end)
    }

    /// Returns the next step. Refuses a file of a type that no list has.
    pub fn look<K: Keep>(&self, node: &FeedNode<'_, K>, outgoing: &OutgoingRequest) -> FetchStep {
        if outgoing.is_over() && !outgoing.has_sent() {
            return FetchStep::Retry;
        }
        let end = end_of(outgoing);
        let step = match (node.part(), node.exchange()) {
            (Some(part), _) => self.look_at_part(&part, end),
            (None, Some(Exchange::Arriving(_))) => wait_or_close(end),
            (None, Some(_)) => FetchStep::Reply,
            (None, None) => FetchStep::Wait,
        };
        match step {
            FetchStep::Part | FetchStep::Reply | FetchStep::Close(_)
                if self.check.refuses_type(&self.front) => { FetchStep::Refuse(Mismatch::Type) }
            step => step,
        }
    }
}

fn wait_or_close(end: Option<StreamEnd>) -> FetchStep {
    match end {
        Some(end) => FetchStep::Close(end),
        None => FetchStep::Wait,
    }
}

// Returns how the connection ended, if it did.
fn end_of(outgoing: &OutgoingRequest) -> Option<StreamEnd> {
    match outgoing.fault() {
        _ if !outgoing.is_over() => None,
        None => Some(StreamEnd::Closed),
        Some(ErrorKind::TimedOut) => Some(StreamEnd::TimedOut),
        Some(_) => Some(StreamEnd::Failed),
    }
}

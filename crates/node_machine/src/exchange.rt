//! The response to one request of a fetch, while a connection receives it.
ghost use Rattle.std.specs.Prelude.{◌≡◌, ◌≤◌, ℕ, List, [], ◌∷◌, ◌++◌, length, drop, Option, Some, None, IfSome, IfNone};
ghost use Rattle.feed_names.specs.ReleaseName.{Name};
ghost use Rattle.feed_http.specs.ArrivingResponses.{file_length};
ghost use Rattle.node_machine.specs.Exchanges.{ExchangeEvent, Requested, Received, Ended};
ghost use Rattle.node_machine.specs.Exchanges.{HasArrived, IsExchange, IsTaken, method_of, part_with};

use feed_fetch::{FetchRequest, Phase, RequestFault};
use feed_http::{FilePart, Got, Method, ResponseMachine, StreamEnd, Taken};
use feed_http_heads::HttpFault;
use feed_limits::PIECE_LIMIT;
use std::alloc::Global;

// The most bytes of a whole file whose length the response does not state.
const UNSIZED_LIMIT: usize = 8_388_608;

/// A response whose bytes arrive.
#[derive(Drop)]
pub struct Arrival {
    pub(crate) machine: ResponseMachine,
    /// The bytes received that the machine did not pass.
    pub(crate) kept: Vec<u8>,
    /// The bytes of the body that were not given to the feed.
    pub(crate) body: Vec<u8>,
    /// How many bytes of the body were given to the feed.
    pub(crate) given: u64,
}

/// The response to the last request of a fetch.
#[derive(Drop)]
pub enum Exchange {
    /// It is arriving.
    Arriving(Arrival),
    /// It was received, or this is why it was not.
    Received(Result<Got, RequestFault>),
    /// It has a whole file without its length, of more than 8,388,608 bytes.
    TooLong,
}

impl Exchange {
    /// Returns how many bytes of the file it has that the feed did not get.
    pub fn file_bytes(&self) -> usize {
        match self {
            Exchange::Arriving(arrival) => arrival.body.len(),
            Exchange::Received(Ok(Got::Piece { bytes, .. } | Got::Whole { bytes })) => {
                bytes.as_slice().len()
            }
            _ => 0,
        }
    }
}

// Discards this many bytes at the front. The ones behind them move there.
fn discard(bytes: &mut Vec<u8>, count: usize)
    requires { count ≤ length bytes.old.items }
    ensures { bytes.new.items ≡ drop count bytes.old.items }
{
    let left = bytes.len() - count;
    bytes.copy_within(count.., 0);
    bytes.truncate(left);
}

impl Arrival {
    /// Begins before the response to a request with this method.
    pub(crate) fn new(alloc: Global, method: Method) -> Arrival
        ensures { (name : Name) (piece : ℕ) (phase : Phase) (front : Option (ℕ × ℕ)) (request : FetchRequest)
            → method ≡ method_of request → HasArrived result (Requested name piece phase front request ∷ []) [] }
    {
        Arrival {
            machine: ResponseMachine::new(method),
            kept: Vec::new(alloc),
            body: Vec::new(alloc),
            given: 0,
        }
    }

    // Returns the exchange once the machine took some of the bytes kept.
    fn follow(mut self, taken: Taken) -> Exchange
        requires { taken.count ≤ length self.kept.items }
        ensures { (events : List ExchangeEvent) (given : List ℕ)
            → IsTaken self taken.count taken.is_over events given → IsExchange result events given }
    {
        let machine = self.machine;
        discard(&mut self.kept, taken.count);
        if machine.file_length().is_some() {
            return Exchange::Arriving(self);
        }
        if taken.is_over {
            return match machine.finish(self.body) {
                Some(got) => Exchange::Received(Ok(got)),
                None => Exchange::TooLong,
            };
        }
        if machine.is_unsized() && self.body.len() > UNSIZED_LIMIT {
            return Exchange::TooLong;
        }
        Exchange::Arriving(self)
    }

    /// Takes bytes that the connection gave.
    pub(crate) fn receive(mut self, bytes: &[u8]) -> Exchange
        ensures { (events : List ExchangeEvent) (given : List ℕ) → HasArrived self events given
            → IsExchange result (Received bytes.now ∷ events) given }
    {
        let Ok(()) = self.kept.extend_from_slice(bytes) else {
            return Exchange::Received(Err(RequestFault::Http(HttpFault::Memory)));
        };
        let ahead = PIECE_LIMIT.saturating_sub(self.body.len());
        match self.machine.take(&self.kept, &mut self.body, ahead) {
            Ok(taken) => self.follow(taken),
            Err(fault) => Exchange::Received(Err(RequestFault::Http(fault))),
        }
    }

    /// Takes the end of the connection. A whole file of a stated length that has arrived remains to be given.
    pub(crate) fn end(mut self, end: StreamEnd) -> Exchange
        ensures { (events : List ExchangeEvent) (given : List ℕ) → HasArrived self events given
            → IsExchange result (Ended end ∷ events) given }
    {
        match self.machine.take(&self.kept, &mut self.body, 0) {
            Ok(taken) => {
                if taken.is_over {
                    return self.follow(taken);
                }
                let machine = self.machine;
                match machine.end(end, self.body) {
                    Ok(got) => Exchange::Received(Ok(got)),
                    Err(fault) => Exchange::Received(Err(RequestFault::Http(fault))),
                }
            }
            Err(fault) => Exchange::Received(Err(RequestFault::Http(fault))),
        }
    }

    /// Returns the part of a whole file that has arrived and was not given to the feed, if the response states the
    /// length of the file.
    pub fn part(&self) -> Option<FilePart<'_>>
        ensures some { IfSome result (λ part.
            part_with self.now (file_length self.now.machine.place)
            ≡ Some (part.first, part.length, part.bytes.now)) }
        ensures none { IfNone result (file_length self.now.machine.place ≡ None) }
    {
        let length = self.machine.file_length()?;
        Some(FilePart {
            first: self.given,
            length,
            bytes: &self.body,
        })
    }

    /// Notes that the part of a file of this length was given to the feed.
    pub(crate) fn pass_part(mut self, length: u64) -> Arrival
        ensures { (events : List ExchangeEvent) (given : List ℕ)
            → file_length self.machine.place ≡ Some length → HasArrived self events given
            → HasArrived result events (given ++ self.body.items) }
    {
        self.given = self.given.saturating_add(self.body.len() as u64);
        self.body.clear();
        self
    }
}

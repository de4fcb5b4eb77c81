//! The fetch of a node, and its feed.
ghost use Rattle.std.specs.Prelude.{◌≡◌, ◌≤◌, ◌⊎◌, ◌∷◌, ◌++◌, ℕ, true, false, List, [], Option, None, Some, Ok, Err};
ghost use Rattle.std.specs.Prelude.{IfErr, IfOk, IfSome, IsOkAnd, IsSome, IsTrue};
ghost use Rattle.feed_names.specs.ReleaseName.{Name, text_of};
ghost use Rattle.feed_limits.specs.Limits.{piece_limit};
ghost use Rattle.feed_model.specs.Content.{IsContent, within};
ghost use Rattle.feed_model.specs.History.{History, Piece};
ghost use Rattle.feed_releases.specs.Feeds.{most_of, recorded};
ghost use Rattle.feed_http.specs.RequestTexts.{is_host};
ghost use Rattle.feed_fetch.specs.Answers.{HasRightAnswer, IsStoppedAt, piece_result, response_or_stop};
ghost use Rattle.feed_fetch.specs.Owed.{IsSubmitted};
ghost use Rattle.feed_fetch.specs.Steps.{IsNextStep, request_text};
ghost use Rattle.node_machine.specs.Exchanges.{ExchangeEvent, Received, Ended, IsExchangeOf};
ghost use Rattle.node_machine.specs.Exchanges.{HasArrived, HasArrivedPart};
ghost use Rattle.node_machine.specs.Exchanges.{is_arriving, method_of, part_of, ended_response, request_for};
ghost use Rattle.node_machine.specs.NodeEvents.{NodeEvent, feed_history};
ghost use Rattle.node_machine.specs.Rules.{AreGiven};
ghost use Rattle.node_machine.specs.Nodes.{HasBegun, HasExchanged, HasFinished, HasHistory, HasRequested};
ghost use Rattle.node_machine.specs.Nodes.{HasTaken, HasTakenPart, IsLater, KeepsHistory};
ghost use Rattle.node_machine.specs.Nodes.{exchange_of, release_of};

use crate::exchange::{Arrival, Exchange};
use crate::machine::NodeMachine;
use crate::occasion::FeedRespond;
use feed_fetch::{Fetch, FetchRequest, Next, Observe, RequestFault, Stop, request_text};
use feed_http::{FilePart, Got, Method, StreamEnd};
use feed_http_heads::HttpFault;
use feed_keep::Keep;
use feed_names::{NameFault, ReleaseName};
use feed_releases::Feed;
use node_table::Stream;
use std::alloc::AllocError;

/// A fetch that is under way.
#[derive(Drop)]
pub struct Fetching {
    /// The release that is fetched.
    pub name: ReleaseName,
    pub fetch: Fetch,
    /// The response to the last request, until it is taken.
    pub exchange: Option<Exchange>,
}

/// A request to the knowledge base.
#[derive(Drop)]
pub struct NextRequest {
    pub request: FetchRequest,
    /// Its bytes.
    pub text: Vec<u8>,
}

// Returns the request for the range that is read next if the file is read from its front on.
fn request_for(front: Option<(u64, u64)>, request: FetchRequest) -> FetchRequest
    ensures { result ≡ request_for front request }
{
    match (front, request) {
        (Some((first, last)), FetchRequest::Range { first: _, last: _ }) => FetchRequest::Range {
            first,
            last,
        },
        _ => request,
    }
}

fn method_of(request: FetchRequest) -> Method
    ensures { result ≡ method_of request }
{
    match request {
        FetchRequest::Length => Method::Head,
        FetchRequest::Range { first: _, last: _ } => Method::Get,
    }
}

// Returns the response that an exchange ended with, or the exchange if it has not ended.
fn into_response(exchange: Option<Exchange>) -> Result<Result<Got, RequestFault>, Option<Exchange>>
    ensures ended { IfOk result (λ reply. ended_response exchange ≡ Some reply) }
    ensures arriving { IfErr result (λ same. (same ≡ exchange) × (ended_response exchange ≡ None)) }
{
    match exchange {
        Some(Exchange::Received(reply)) => Ok(reply),
        Some(Exchange::TooLong) => Ok(Err(RequestFault::Http(HttpFault::BodyTooLong))),
        exchange => Err(exchange),
    }
}

// Returns the response that is arriving, or the exchange if none is.
fn into_arrival(exchange: Option<Exchange>) -> Result<Arrival, Option<Exchange>>
    ensures arriving { IfOk result (λ arrival. exchange ≡ Some (Exchange.Arriving arrival)) }
    ensures ended { IfErr result (λ same. (same ≡ exchange) × (part_of exchange ≡ None)) }
{
    match exchange {
        Some(Exchange::Arriving(arrival)) => Ok(arrival),
        exchange => Err(exchange),
    }
}

// Submits the response to the feed.
fn submit<K: Keep, O: Observe>(
    fetch: &mut Fetch,
    is_read_again: bool,
    feed: &mut Feed<K>,
    name: &ReleaseName,
    reply: &Result<Got, RequestFault>,
    out: &mut O,
) -> Result<(), Stop>
    ensures owed { IsSubmitted name.now fetch.old.phase reply.now
        (λ k. IfErr result (λ stop. IsStoppedAt name.now stop k)) (recorded feed.old) (recorded feed.new) }
    ensures room { most_of feed.new ≡ most_of feed.old }
{
    if is_read_again {
        fetch.take_again(feed, name, reply, out)
    } else {
        fetch.take(feed, name, reply, out)
    }
}

impl Fetching {
    // Passes bytes of the response to the exchange, if one is arriving.
    fn receive(self, bytes: &[u8]) -> Fetching
        ensures name { result.name ≡ self.name }
        ensures fetch { result.fetch ≡ self.fetch }
        ensures received { is_arriving self.exchange ≡ true → (events : List ExchangeEvent) (given : List ℕ)
            → IsExchangeOf self.exchange self.name events given
            → IsExchangeOf result.exchange self.name (Received bytes.now ∷ events) given }
        ensures kept { is_arriving self.exchange ≡ false → result ≡ self }
    {
        let Fetching {
            name,
            fetch,
            exchange,
        } = self;
        let exchange = match exchange {
            Some(Exchange::Arriving(arrival)) => Some(arrival.receive(bytes)),
            other => other,
        };
        Fetching {
            name,
            fetch,
            exchange,
        }
    }

    // Passes the end of the connection to it.
    fn end(self, end: StreamEnd) -> Fetching
        ensures name { result.name ≡ self.name }
        ensures fetch { result.fetch ≡ self.fetch }
        ensures ended { is_arriving self.exchange ≡ true → (events : List ExchangeEvent) (given : List ℕ)
            → IsExchangeOf self.exchange self.name events given
            → IsExchangeOf result.exchange self.name (Ended end ∷ events) given }
        ensures kept { is_arriving self.exchange ≡ false → result ≡ self }
    {
        let Fetching {
            name,
            fetch,
            exchange,
        } = self;
        let exchange = match exchange {
            Some(Exchange::Arriving(arrival)) => Some(arrival.end(end)),
            other => other,
        };
        Fetching {
            name,
            fetch,
            exchange,
        }
    }
}

// Submits the part of a whole file that has arrived to the feed, and notes that.
fn submit_part<K: Keep, O: Observe>(
    arrival: Arrival,
    fetch: &mut Fetch,
    feed: &mut Feed<K>,
    name: &ReleaseName,
    out: &mut O,
) -> (Arrival, Result<bool, Stop>)
    ensures right { (first size : ℕ) (bytes : List ℕ)
        → part_of (Some (Exchange.Arriving arrival)) ≡ Some (first, size, bytes)
        → HasRightAnswer
        (λ answer. (result.1 ≡ piece_result (response_or_stop answer)) ⊎ (result.1 ≡ Err Stop.Print))
        (recorded feed.old) (Piece name.now first (Some size) bytes) (recorded feed.new) }
    ensures passed { (first size : ℕ) (bytes : List ℕ)
        → part_of (Some (Exchange.Arriving arrival)) ≡ Some (first, size, bytes)
        → (events : List ExchangeEvent) (given : List ℕ) → HasArrived arrival events given
        → HasArrived result.0 events (given ++ bytes) × HasArrivedPart events size first bytes }
    ensures room { most_of feed.new ≡ most_of feed.old }
    ensures idle { part_of (Some (Exchange.Arriving arrival)) ≡ None
        → (result.0 ≡ arrival) × (fetch.new ≡ fetch.old) × (feed.new ≡ feed.old) }
{
    let Some(part) = arrival.part() else {
        return (arrival, Err(Stop::NoProgress));
    };
    let length = part.length;
    let outcome = fetch.take_part(feed, name, &part, out);
    (arrival.pass_part(length), outcome)
}

impl<'a, T: Stream, K: Keep, S: FeedRespond + Drop> NodeMachine<'a, T, K, S> {
    /// Returns the feed.
    pub fn feed(&self) -> &Feed<K>
        ensures { result.now ≡ self.now.feed }
    {
        &self.feed
    }

    /// Returns the responder.
    pub fn responder(&self) -> &S
        ensures { result.now ≡ self.now.responder }
    {
        &self.responder
    }

    /// Returns the fetch that is under way.
    pub fn fetching(&self) -> Option<&Fetching> {
        self.fetching.as_ref()
    }

    /// Returns the exchange that the last request began, until its response is taken.
    pub fn exchange(&self) -> Option<&Exchange> {
        self.fetching.as_ref()?.exchange.as_ref()
    }

    /// Returns the part of a whole file of a stated length that has arrived and was not taken.
    pub fn part(&self) -> Option<FilePart<'_>>
        ensures { IfSome result (λ part.
            part_of (exchange_of self.now.fetching) ≡ Some (part.first, part.length, part.bytes.now)) }
    {
        match &self.fetching.as_ref()?.exchange {
            Some(Exchange::Arriving(arrival)) => arrival.part(),
            _ => None,
        }
    }

    /// Begins the fetch that a client asked for, by requests for at most `piece` places. Returns none if no client did,
    /// and an error if the name is invalid.
    pub fn begin_fetch(&mut self, piece: u64) -> Option<Result<(), NameFault>>
        requires least { 1 ≤ piece }
        requires most { piece ≤ piece_limit }
        ensures begun { HasBegun S.wanted S.responses S.sites self.old self.new }
        ensures kept { self.old.requested ≡ None → self.new ≡ self.old }
        ensures later { IsLater S.wanted S.responses S.sites self.old self.new }
    {
        match self.requested.take()? {
            Ok(name) => {
                let fetch = Fetch::new(piece);
                self.fetching = Some(Fetching {
                    name,
                    fetch,
                    exchange: None,
                });
                Some(Ok(()))
            }
            Err(fault) => Some(Err(fault)),
        }
    }

    /// Ends the fetch that is under way. Returns the release.
    pub fn end_fetch(&mut self) -> Option<ReleaseName>
        ensures ended { result ≡ release_of self.old.fetching }
        ensures finished { HasFinished S.wanted S.responses S.sites self.old self.new }
        ensures kept { self.old.fetching ≡ None → self.new ≡ self.old }
        ensures later { IsLater S.wanted S.responses S.sites self.old self.new }
    {
        let fetching = self.fetching.take()?;
        Some(fetching.name)
    }

    /// Begins the exchange that the fetch under way needs next: returns the request with its bytes, for a server with
    /// this host, or none if the fetch needs nothing. If its file is read from the front on, `front` has the first and
    /// the last place that were not read. This range is then requested, and not the one that the feed lacks.
    ///
    /// # Errors
    ///
    /// Running out of memory.
    pub fn next_request(
        &mut self,
        host: &[u8],
        front: Option<(u64, u64)>,
    ) -> Result<Option<NextRequest>, AllocError>
        requires { IsTrue (is_host host.now) }
        ensures requested { IfOk result (λ next. IfSome next (λ sent.
            HasRequested S.wanted S.responses S.sites front sent.request self.old self.new)) }
        ensures text { IfOk result (λ next. IfSome next (λ sent. (fetching : Fetching)
            → self.old.fetching ≡ Some fetching
            → sent.text.items ≡ request_text host.now (text_of fetching.name) sent.request)) }
        ensures done { result ≡ Ok None → (fetching : Fetching) → self.old.fetching ≡ Some fetching
            → (h : History) → IsContent (recorded self.old.feed) h
            → IsNextStep fetching.name fetching.fetch.piece fetching.fetch.phase h Next.Done }
        ensures kept { IsOkAnd result (λ next. IsSome next) ⊎ (self.new ≡ self.old) }
        ensures later { IsLater S.wanted S.responses S.sites self.old self.new }
    {
        let Some(fetching) = &self.fetching else {
            return Ok(None);
        };
        let Next::Ask(needed) = fetching.fetch.next(&self.feed, &fetching.name) else {
            return Ok(None);
        };
        let request = request_for(front, needed);
        let text = request_text(self.alloc, host, &fetching.name, request)?;
        self.await_response(Arrival::new(self.alloc, method_of(request)));
        Ok(Some(NextRequest { request, text }))
    }

    // Begins to wait for a response.
    fn await_response(&mut self, arrival: Arrival)
        ensures { (fetching : Fetching) → self.old.fetching ≡ Some fetching
            → self.new ≡ record self.old {
              fetching = Some
                  (record fetching { exchange = Some (Exchange.Arriving arrival) });
            } }
    {
        if let Some(fetching) = self.fetching.take() {
            let Fetching {
                name,
                fetch,
                exchange: _,
            } = fetching;
            self.fetching = Some(Fetching {
                name,
                fetch,
                exchange: Some(Exchange::Arriving(arrival)),
            });
        }
    }

    /// Takes bytes that the connection to the knowledge base gave, if a response is arriving.
    pub fn receive(&mut self, bytes: &[u8])
        ensures received { is_arriving (exchange_of self.old.fetching) ≡ true
            → HasExchanged S.wanted S.responses S.sites (Received bytes.now) self.old self.new }
        ensures kept { is_arriving (exchange_of self.old.fetching) ≡ false → self.new ≡ self.old }
        ensures later { IsLater S.wanted S.responses S.sites self.old self.new }
    {
        if let Some(fetching) = self.fetching.take() {
            self.fetching = Some(fetching.receive(bytes));
        }
    }

    /// Takes the end of the connection to the knowledge base, if a response is arriving.
    pub fn end_connection(&mut self, end: StreamEnd)
        ensures ended { is_arriving (exchange_of self.old.fetching) ≡ true
            → HasExchanged S.wanted S.responses S.sites (Ended end) self.old self.new }
        ensures kept { is_arriving (exchange_of self.old.fetching) ≡ false → self.new ≡ self.old }
        ensures later { IsLater S.wanted S.responses S.sites self.old self.new }
    {
        if let Some(fetching) = self.fetching.take() {
            self.fetching = Some(fetching.end(end));
        }
    }

    /// Takes the response that the exchange ended with, or why there is none. If the file is read from its front on, a
    /// piece may have no new bytes. Returns why the fetch stops, if it does.
    pub fn take_response<O: Observe>(
        &mut self,
        is_read_again: bool,
        out: &mut O,
    ) -> Result<(), Stop>
        ensures taken { (history : List (NodeEvent S.Sites)) → HasHistory S.wanted S.responses S.sites self.old history
            → HasTaken S.wanted S.responses S.sites self.old self.new history }
        ensures later { IsLater S.wanted S.responses S.sites self.old self.new }
        ensures idle { ended_response (exchange_of self.old.fetching) ≡ None → self.new ≡ self.old }
    {
        let Some(fetching) = self.fetching.take() else {
            return Err(Stop::NoProgress);
        };
        let Fetching {
            name,
            mut fetch,
            exchange,
        } = fetching;
        match into_response(exchange) {
            Ok(reply) => {
                let outcome = submit(
                    &mut fetch,
                    is_read_again,
                    &mut self.feed,
                    &name,
                    &reply,
                    out,
                );
                self.fetching = Some(Fetching {
                    name,
                    fetch,
                    exchange: None,
                });
                outcome
            }
            Err(exchange) => {
                self.fetching = Some(Fetching {
                    name,
                    fetch,
                    exchange,
                });
                Err(Stop::NoProgress)
            }
        }
    }

    /// Takes the part of a whole file that has arrived, before the rest of it. Returns whether it had new bytes, or why
    /// the fetch stops.
    pub fn take_part<O: Observe>(&mut self, out: &mut O) -> Result<bool, Stop>
        ensures taken { (history : List (NodeEvent S.Sites)) → HasHistory S.wanted S.responses S.sites self.old history
            → HasTakenPart S.wanted S.responses S.sites self.old self.new history }
        ensures later { IsLater S.wanted S.responses S.sites self.old self.new }
        ensures idle { part_of (exchange_of self.old.fetching) ≡ None → self.new ≡ self.old }
    {
        let Some(fetching) = self.fetching.take() else {
            return Err(Stop::NoProgress);
        };
        let Fetching {
            name,
            mut fetch,
            exchange,
        } = fetching;
        match into_arrival(exchange) {
            Ok(arrival) => {
                let (arrival, outcome) = submit_part(
                    arrival,
                    &mut fetch,
                    &mut self.feed,
                    &name,
                    out,
                );
                self.fetching = Some(Fetching {
                    name,
                    fetch,
                    exchange: Some(Exchange::Arriving(arrival)),
                });
                outcome
            }
            Err(exchange) => {
                self.fetching = Some(Fetching {
                    name,
                    fetch,
                    exchange,
                });
                Err(Stop::NoProgress)
            }
        }
    }

    /// Has the feed do some of the work that no answer waits for: it frees a portion of the releases that the last
    /// switch removed, or reads ahead at most 131,072 bytes. Returns whether there is more to do.
    pub fn catch_up(&mut self) -> bool
        ensures history { KeepsHistory S.wanted S.responses S.sites self.old self.new }
        ensures later { IsLater S.wanted S.responses S.sites self.old self.new }
    {
        self.feed.catch_up()
    }

    /// Keeps what the responder computes of the active releases and the day alone, which changes no response. Returns
    /// whether the releases changed.
    ///
    /// # Errors
    ///
    /// Running out of memory.
    pub fn keep_releases(&mut self) -> Result<bool, AllocError>
        ensures { self.new ≡ self.old }
    {
        self.responder
            .keep_releases(self.alloc, &self.today, &self.feed)
    }

    /// Closes all connections, and returns the keeper. A node that is opened over it has the same history.
    pub fn into_keeper(self) -> K
        ensures { (history : List (NodeEvent S.Sites))
            → HasHistory S.wanted S.responses S.sites self.entry history → K.clean result
            → IsContent (within (most_of self.entry.feed) (K.content result)) (feed_history history)
            × AreGiven history }
    {
        let NodeMachine {
            alloc: _,
            table: _,
            feed,
            responder: _,
            token: _,
            fetching: _,
            requested: _,
            today: _,
            reload: _,
        } = self;
        feed.restart()
    }
}

//! The trait `FeedRespond`, which makes the responses of a node from its feed.
use feed_answer::Today;
use feed_keep::Keep;
use feed_releases::Feed;
use node_connection::{BODY_LIMIT, IncomingRequest, LoggedResponse, Respond, RespondFault};
use node_request::{FetchPolicy, ParsedRequest};
use std::alloc::{AllocError, Global};

/// The feed and the circumstances from which a responder makes a response.
#[derive(Drop)]
pub struct Occasion<'f, 't, K: Keep> {
    /// The feed as it is at this moment.
    pub feed: &'f Feed<K>,
    /// Who may make the node fetch.
    pub policy: FetchPolicy<'t>,
    /// Whether the client is on the same machine.
    pub is_local: bool,
    /// The day, in UTC.
    pub today: Today,
}

/// Makes the responses of a node from its feed.
pub trait FeedRespond {
    ghost use Rattle.std.specs.Prelude.{◌≡◌, ◌≤◌, List, ℕ, Bool, true, Some, IfOk};
    ghost use Rattle.httparse.specs.Grammar.{RequestHead};
    ghost use Rattle.feed_http_heads.specs.Options.{SaysWhetherItKeeps};
    ghost use Rattle.feed_http_heads.specs.Requests.{HasHead};
    ghost use Rattle.feed_model.specs.History.{History};
    ghost use Rattle.node_connection.specs.Requests.{IsPersistent};
    ghost use Rattle.node_machine.specs.Rules.{Terms};
    ghost use Rattle.node_machine.specs.Occasions.{AreResponsesOf, IsResponseOn};

    /// The length of the body that the responder wants after this head, or 0.
    ghost wanted: { Self → RequestHead → ℕ };

    /// The sites of hosts.
    type Sites: Drop;

    /// The sites that it responds with.
    ghost sites: { Self → Self.Sites };

    /// In these circumstances and for a feed with this history, a head of a request, or bytes that are not one, and
    /// this body have this response if the connection persists after it, or does not.
    ghost responses: { Self → Terms Self.Sites → History → List ℕ → List ℕ → Bool → List ℕ → Type 0 };

    /// Returns how many bytes of a body are received after the head of a request: at most 8,192, and 0 for none.
    fn body_len(&self, parsed: &ParsedRequest<'_>) -> usize
        ensures wanted { (head : RequestHead) → HasHead parsed.now.request head → result ≡ wanted self.now head }
        ensures limit { result ≤ BODY_LIMIT };

    /// Returns the response to a request. The response says `Connection: close` exactly if the connection does not
    /// persist (RFC 9112, section 9.6).
    fn respond<K: Keep>(
        &self,
        alloc: Global,
        occasion: &Occasion<'_, '_, K>,
        request: &IncomingRequest<'_>,
    ) -> Result<LoggedResponse, RespondFault>
        requires allowed { request.now.persists ≡ true
            → IsPersistent (wanted self.now) request.now.received.bytes.now request.now.body.now }
        ensures reply { IfOk result (λ reply. IsResponseOn (responses self.now) (sites self.now) occasion.now
            request.now.received.bytes.now request.now.body.now request.now.persists (Some reply.bytes.items)) }
        ensures says { IfOk result (λ reply. SaysWhetherItKeeps request.now.persists reply.bytes.items) };

    /// Keeps what it computes of the active releases and the day alone, which changes no response. Returns whether the
    /// releases changed.
    ///
    /// # Errors
    ///
    /// Running out of memory.
    fn keep_releases<K: Keep>(
        &mut self,
        alloc: Global,
        today: &Today,
        feed: &Feed<K>,
    ) -> Result<bool, AllocError>
        ensures { self.new ≡ self.old };

    /// Responds with these sites from now on, and otherwise as before. Returns the sites that it had.
    fn replace_sites(&mut self, begun: Self::Sites) -> Self::Sites
        ensures sites { sites self.new ≡ begun }
        ensures old { result ≡ sites self.old }
        ensures wanted { wanted self.new ≡ wanted self.old }
        ensures responses { AreResponsesOf (responses self.old) (responses self.new) };
}

/// A responder with the feed of one moment.
#[derive(Drop)]
pub(crate) struct MomentResponder<'s, 'f, 't, K: Keep, S> {
    responder: &'s S,
    occasion: Occasion<'f, 't, K>,
}

impl<'s, 'f, 't, K: Keep, S> MomentResponder<'s, 'f, 't, K, S> {
    ghost use Rattle.std.specs.Prelude.{◌≡◌};

    pub(crate) fn new(
        responder: &'s S,
        feed: &'f Feed<K>,
        policy: FetchPolicy<'t>,
        is_local: bool,
        today: Today,
    ) -> MomentResponder<'s, 'f, 't, K, S>
        ensures responder { result.responder.now ≡ responder.now }
        ensures feed { result.occasion.feed.now ≡ feed.now }
        ensures policy { result.occasion.policy ≡ policy.entry }
        ensures is_local { result.occasion.is_local ≡ is_local }
        ensures today { result.occasion.today ≡ today }
    {
        MomentResponder {
            responder,
            occasion: Occasion {
                feed,
                policy,
                is_local,
                today,
            },
        }
    }
}

impl<'s, 'f, 't, K: Keep, S: FeedRespond> Respond for MomentResponder<'s, 'f, 't, K, S> {
    ghost use Rattle.node_machine.specs.Occasions.{IsResponseOn};

    ghost wanted = { λ moment head. S.wanted moment.responder.now head };

    ghost responses = { λ moment. IsResponseOn (S.responses moment.responder.now) (S.sites moment.responder.now)
        moment.occasion };

    fn body_len(&self, parsed: &ParsedRequest<'_>) -> usize {
        self.responder.body_len(parsed)
    }

    fn respond(
        &self,
        alloc: Global,
        request: &IncomingRequest<'_>,
    ) -> Result<LoggedResponse, RespondFault> {
        self.responder.respond(alloc, &self.occasion, request)
    }
}

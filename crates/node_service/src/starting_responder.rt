//! The responses of a node whose feed is not open yet: reports of itself, and no others.
use feed_answer::Today;
use feed_keep::Keep;
use feed_releases::Feed;
use node_connection::{IncomingRequest, LoggedResponse, RespondFault};
use node_machine::{FeedRespond, Occasion};
use node_monitoring::ReportRequest;
use node_request::ParsedRequest;
use node_state::NodeState;
use std::alloc::{AllocError, Global};

/// A responder that makes responses about the node alone, as of one without an active release. To any other request it
/// makes none, so the client gets 503 and may try again.
#[derive(Drop)]
pub struct StartingResponder<'a> {
    pub state: &'a NodeState,
    /// The version of the program.
    pub version: &'a [u8],
    /// Whether clients on other machines may have reports of the node, too.
    pub has_open_reports: bool,
}

impl<'a> FeedRespond for StartingResponder<'a> {
    ghost use Rattle.node_service.specs.Starting.{IsStartingText};

    type Sites = ();

    ghost sites = { λ responder. tt };

    ghost wanted = { λ responder head. 0 };

    ghost responses = { IsStartingText };

    fn body_len(&self, _parsed: &ParsedRequest<'_>) -> usize {
        0
    }

    fn respond<K: Keep>(
        &self,
        alloc: Global,
        occasion: &Occasion<'_, '_, K>,
        request: &IncomingRequest<'_>,
    ) -> Result<LoggedResponse, RespondFault> {
        let report = ReportRequest {
            received: request.received,
            is_local: occasion.is_local,
            is_open: self.has_open_reports,
            keeps: request.persists,
        };
        let found = self.state.starting_report(alloc, &report, self.version)?;
        match found {
            Some(reply) => Ok(LoggedResponse::new(reply.bytes, reply.status, reply.body_len)),
            None => Err(RespondFault::Busy),
        }
    }

    fn keep_releases<K: Keep>(
        &mut self,
        _alloc: Global,
        _today: &Today,
        _feed: &Feed<K>,
    ) -> Result<bool, AllocError> {
        Ok(false)
    }

    fn replace_sites(&mut self, begun: ()) {
        begun
    }
}

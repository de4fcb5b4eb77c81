//! The responses of a node to its requests.
ghost use Rattle.std.specs.Prelude.{◌≡◌, ◌⊎◌, is_some, Err, IfNone, IfOk, IfSome, MatchBool};
ghost use Rattle.feed_model.specs.History.{History};
ghost use Rattle.feed_model.specs.Content.{IsContent};
ghost use Rattle.feed_releases.specs.Feeds.{recorded};
ghost use Rattle.node_sites.specs.SitePlaces.{IsSitePlace};
ghost use Rattle.node_operator.specs.SitesResponses.{SaysOfSites};
ghost use Rattle.feed_http_heads.specs.Options.{SaysWhetherItKeeps};
ghost use Rattle.node_machine.specs.Occasions.{terms_of};
ghost use Rattle.node_request.specs.FetchRequests.{IsWhetherToBegin};
ghost use Rattle.node_service.specs.Reports.{HasReport, HasNoReport, IsReportIn};
ghost use Rattle.node_service.specs.Responders.{IsHeldBack, IsOperatorResponse, IsResponseBy, IsTurnResponse};
ghost use Rattle.node_service.specs.Responders.{IsWhetherToRead, IsWhetherToStream, SaysOfTurn, response_in};

use crate::wanted::{WantedPackage, is_answerable, missing_text};
use feed_answer::Today;
use feed_keep::Keep;
use feed_releases::Feed;
use node_connection::{BODY_LIMIT, IncomingRequest, LoggedResponse, RespondFault, ResponseSummary};
use node_file_checks::ExpectedFile;
use node_machine::{FeedRespond, Occasion};
use node_monitoring::{ReportResponse, gets_report};
use node_operator::{ends_fetch, respond_about_sites};
use node_request::{
    FetchPolicy, ParsedRequest, ReceivedRequest, fetch_to_begin, form_length, sites_to_read,
};
use node_resolver::{keep_releases, respond_as_node};
use node_response::ResponseText;
use node_sites::{NodeSites, site_place};
use node_state::{NodeState, release_times};
use std::alloc::{AllocError, Global};
use std::mem::replace;

/// A responder that responds from the feed of a node.
#[derive(Drop)]
pub struct FeedResponder<'a> {
    pub state: &'a NodeState,
    /// The sites of hosts, on which responses depend, each with the version and the settings.
    pub sites: NodeSites,
    /// The version of the program.
    pub version: &'a [u8],
    /// Whether clients on other machines may have reports of the node, too.
    pub has_open_reports: bool,
    /// Whether the metrics have a series for each active release even if these are more than 256.
    pub has_all_series: bool,
    /// The packages that readers wait for.
    pub wanted: &'a [WantedPackage],
    /// Whether the node has a folder of site files, which an operator may have it read again.
    pub has_folder: bool,
}

// Returns the response with this response, which is streamed or not, by the site at this place.
fn into_response(response: ResponseText, is_streamed: bool, site: Option<usize>) -> LoggedResponse
    ensures response { response_in result ≡ response }
    ensures streamed { result.summary.is_streamed ≡ is_streamed }
    ensures site { result.summary.site ≡ site }
{
    let summary = ResponseSummary {
        status: response.status(),
        body_len: response.body_length(),
        is_streamed,
        fault: None,
        site,
    };
    LoggedResponse {
        bytes: response.into_bytes(),
        summary,
    }
}

// Returns what a request says of the file that the node begins to fetch for it, or none if it does not begin to. So
// only a client that has the token says anything, such as that it accepts any list.
fn expected_by(
    alloc: Global,
    received: &ReceivedRequest<'_>,
    policy: &FetchPolicy<'_>,
) -> Option<Option<ExpectedFile>>
    ensures { IsWhetherToBegin policy.now received.now.bytes.now (is_some result) }
{
    match fetch_to_begin(alloc, received, policy) {
        Some(_) => Some(ExpectedFile::of_request(received)),
        None => None,
    }
}

// Returns whether a node, which has a folder of site files or has none, begins to read it for a request.
fn reads_folder(has_folder: bool, received: &ReceivedRequest<'_>, policy: &FetchPolicy<'_>) -> bool
    ensures { IsWhetherToRead has_folder policy.now received.now.bytes.now result }
{
    let asked = sites_to_read(received, policy);
    has_folder && asked.is_some()
}

// Returns whether the response to a request is streamed, which makes the node begin to fetch, or does not.
fn is_streamed(
    begins: bool,
    has_folder: bool,
    received: &ReceivedRequest<'_>,
    policy: &FetchPolicy<'_>,
) -> bool
    ensures { IsWhetherToBegin policy.now received.now.bytes.now begins
        → IsWhetherToStream has_folder policy.now received.now.bytes.now result }
{
    let reads = reads_folder(has_folder, received, policy);
    begins || reads
}

impl<'a> FeedResponder<'a> {
    // Returns the response to a request about the recorded releases, or about the folder of site files.
    fn operator_response<K: Keep>(
        &self,
        alloc: Global,
        occasion: &Occasion<'_, '_, K>,
        request: &IncomingRequest<'_>,
    ) -> Result<Option<ResponseText>, AllocError>
        ensures value { IfOk result (IsOperatorResponse self.now.has_folder occasion.now.policy
            request.now.received.bytes.now request.now.persists) }
        ensures says { IfOk result (λ found. IfSome found (λ response.
            SaysOfSites request.now.received.bytes.now request.now.persists response)) }
    {
        let policy = &occasion.policy;
        let received = &request.received;
        match self
            .state
            .feed_response(alloc, received, request.persists, policy, occasion.feed)?
        {
            Some(response) => Ok(Some(response)),
            None => respond_about_sites(alloc, received, request.persists, policy, self.has_folder),
        }
    }

    // Returns the response to a request that is not for a report, or none to a reader while a wanted package has no
    // active release.
    fn response<K: Keep>(
        &self,
        alloc: Global,
        occasion: &Occasion<'_, '_, K>,
        request: &IncomingRequest<'_>,
    ) -> Result<Option<ResponseText>, AllocError>
        ensures reply { IfOk result (λ found. IfSome found (λ response.
            (h : History) → IsContent (recorded occasion.now.feed.now) h
            → IsResponseBy self.now (terms_of self.now.sites occasion.now) h
            request.now.received.bytes.now request.now.body.now request.now.persists response)) }
        ensures says { IfOk result (λ found. IfSome found (λ response.
            SaysOfTurn request.now.received.bytes.now request.now.persists response)) }
        ensures held { IfOk result (λ found. IfNone found (
            (h : History) → IsContent (recorded occasion.now.feed.now) h
            → IsHeldBack self.now occasion.now.policy h request.now.received.bytes.now request.now.persists)) }
    {
        let feed = occasion.feed;
        let received = &request.received;
        match self.operator_response(alloc, occasion, request)? {
            Some(response) => Ok(Some(response)),
            None => {
                if !is_answerable(feed, self.wanted, received)? {
                    return Ok(None);
                }
                let response = respond_as_node(
                    alloc,
                    received,
                    request.body,
                    request.persists,
                    &occasion.policy,
                    &self.sites,
                    &occasion.today,
                    feed,
                )?;
                Ok(Some(response))
            }
        }
    }

    // Returns whether the request asks for a response about the node and the client may have it.
    fn is_report(&self, is_local: bool, received: &ReceivedRequest<'_>) -> bool
        ensures { MatchBool result (HasReport self.now is_local received.now.bytes.now)
            (HasNoReport self.now is_local received.now.bytes.now) }
    {
        gets_report(is_local, self.has_open_reports, received)
    }

    // Returns the response about the node, if the request asks for one and the client may have it.
    #[tactic(auto, using(crate::proofs::Reported::report_in))]
    fn report<K: Keep>(
        &self,
        alloc: Global,
        occasion: &Occasion<'_, '_, K>,
        request: &IncomingRequest<'_>,
    ) -> Result<Option<ReportResponse>, AllocError>
        ensures value { IfOk result (λ found. (h : History) → IsContent (recorded occasion.now.feed.now) h
            → IsReportIn self.now occasion.now.is_local h request.now.received.bytes.now request.now.persists found) }
        ensures says { IfOk result (λ found. IfSome found (λ reply.
            SaysWhetherItKeeps request.now.persists reply.bytes.items)) }
    {
        if !self.is_report(occasion.is_local, &request.received) {
            return Ok(None);
        }
        let actives = occasion.feed.actives()?;
        let releases = release_times(alloc, &actives)?;
        let missing = missing_text(alloc, &actives, self.wanted)?;
        self.state.report(
            alloc,
            request,
            self.version,
            &releases,
            self.has_all_series,
            &missing,
        )
    }

    // Returns the response to a reader, or to a client that has the token. It is streamed exactly if the request makes
    // the node begin to fetch, or to read its folder: what the first says of the file is noted. So is a request that
    // ends the fetch under way.
    fn reader_response<K: Keep>(
        &self,
        alloc: Global,
        occasion: &Occasion<'_, '_, K>,
        request: &IncomingRequest<'_>,
    ) -> Result<LoggedResponse, RespondFault>
        ensures turn { IfOk result (λ reply. (h : History) → IsContent (recorded occasion.now.feed.now) h
            → IsTurnResponse self.now (terms_of self.now.sites occasion.now) h
            request.now.received.bytes.now request.now.body.now request.now.persists
            (response_in reply) reply.summary.is_streamed) }
        ensures says { IfOk result (λ reply.
            SaysOfTurn request.now.received.bytes.now request.now.persists (response_in reply)) }
        ensures site { IfOk result (λ reply.
            IsSitePlace self.now.sites request.now.received.bytes.now reply.summary.site) }
        ensures held { result ≡ Err RespondFault.Busy → (h : History) → IsContent (recorded occasion.now.feed.now) h
            → IsHeldBack self.now occasion.now.policy h request.now.received.bytes.now request.now.persists }
    {
        let expected = expected_by(alloc, &request.received, &occasion.policy);
        let is_streamed = is_streamed(
            expected.is_some(),
            self.has_folder,
            &request.received,
            &occasion.policy,
        );
        match self.response(alloc, occasion, request) {
            Ok(Some(response)) => {
                self.note(&request.received, &occasion.policy, expected);
                let site = site_place(&self.sites, &request.received);
                Ok(into_response(response, is_streamed, site))
            }
            Ok(None) => Err(RespondFault::Busy),
            Err(_) => Err(RespondFault::Memory),
        }
    }

    // Notes what a request says of the file that the node begins to fetch for it, or that the fetch under way ends by
    // it.
    fn note(
        &self,
        received: &ReceivedRequest<'_>,
        policy: &FetchPolicy<'_>,
        expected: Option<Option<ExpectedFile>>,
    ) {
        self.note_end(received, policy);
        if let Some(expected) = expected {
            self.state.expect(expected);
        }
    }

    // Has the node end the fetch that is under way, if the request asks for that and has the token.
    fn note_end(&self, received: &ReceivedRequest<'_>, policy: &FetchPolicy<'_>) {
        if policy.is_busy && ends_fetch(received, policy) {
            self.state.cancel_fetch();
        }
    }
}

impl<'a> FeedRespond for FeedResponder<'a> {
    ghost use Rattle.node_request.specs.Forms.{form_length};
    ghost use Rattle.node_service.specs.Responders.{IsTurnText};

    type Sites = NodeSites;

    ghost sites = { λ responder. responder.sites };

    ghost wanted = { λ responder head. form_length head };

    ghost responses = { IsTurnText };

    fn body_len(&self, parsed: &ParsedRequest<'_>) -> usize {
        (form_length(parsed) as usize).min(BODY_LIMIT)
    }

    fn respond<K: Keep>(
        &self,
        alloc: Global,
        occasion: &Occasion<'_, '_, K>,
        request: &IncomingRequest<'_>,
    ) -> Result<LoggedResponse, RespondFault> {
        match self.report(alloc, occasion, request)? {
            Some(reply) => Ok(LoggedResponse::new(reply.bytes, reply.status, reply.body_len)),
            None => self.reader_response(alloc, occasion, request),
        }
    }

    fn keep_releases<K: Keep>(
        &mut self,
        alloc: Global,
        today: &Today,
        feed: &Feed<K>,
    ) -> Result<bool, AllocError> {
        keep_releases(alloc, &mut self.sites, today, feed)
    }

    fn replace_sites(&mut self, begun: NodeSites) -> NodeSites {
        replace(&mut self.sites, begun)
    }
}

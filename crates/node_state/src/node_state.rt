//! The state that the responses and the log of a node share: what the node counts, and the last fetches.
ghost use Rattle.std.specs.Prelude.{IfOk, IfSome};
ghost use Rattle.feed_http_heads.specs.Options.{SaysWhetherItKeeps};
ghost use Rattle.node_operator.specs.FeedResponses.{IsFeedResponse};
ghost use Rattle.node_state.specs.StateReports.{IsSomeResponse, IsSomeStartingResponse};

use crate::counts::NodeCounts;
use crate::fetch_outcome::FetchOutcome;
use crate::last_fetches::LastFetches;
use feed_keep::Keep;
use feed_names::ReleaseName;
use feed_releases::Feed;
use node_connection::IncomingRequest;
use node_file_checks::ExpectedFile;
use node_monitoring::{
    Gauges, LogPolicy, LoggedExchange, ReleaseTime, ReportRequest, ReportResponse, SiteName,
    Timing, record_exchange, respond_about_node, respond_at_start,
};
use node_operator::{Activity, LastFetch, respond_about_feed};
use node_request::{FetchPolicy, ReceivedRequest};
use node_response::ResponseText;
use node_sites::NamedSite;
use node_table::CloseCause;
use std::alloc::{AllocError, Global};
use std::cell::{Cell, RefCell};
use std::time::Instant;

/// The facts of a node at the beginning of a turn.
#[derive(Clone, Copy)]
pub struct TurnFacts {
    /// The bytes of responses that are held to be sent.
    pub held_bytes: u64,
    /// The seconds since the last switch to a release, if there was one.
    pub since_switch: Option<u64>,
}

/// The state that the responses and the log of a node share.
#[derive(Drop)]
pub struct NodeState {
    counts: RefCell<NodeCounts>,
    facts: Cell<TurnFacts>,
    /// Whether a client has asked that the fetch under way end.
    is_canceled: Cell<bool>,
    /// When the node began to answer from its feed, in seconds since 1970-01-01.
    started: Cell<u64>,
    /// When the sites were last read again.
    renamed: Cell<Option<Instant>>,
    fetches: RefCell<LastFetches>,
    /// The last fetch of each package that activated its release.
    activations: RefCell<LastFetches>,
    /// The description of the file by the last client that made the node fetch, or none if its query is invalid.
    expected: Cell<Option<ExpectedFile>>,
}

impl NodeState {
    pub fn new(alloc: Global) -> Result<NodeState, AllocError> {
        Ok(NodeState {
            counts: RefCell::new(NodeCounts::new(alloc)?),
            facts: Cell::new(TurnFacts {
                held_bytes: 0,
                since_switch: None,
            }),
            is_canceled: Cell::new(false),
            started: Cell::new(0),
            renamed: Cell::new(None),
            fetches: RefCell::new(LastFetches::new(alloc)),
            activations: RefCell::new(LastFetches::new(alloc)),
            expected: Cell::new(None),
        })
    }

    /// Notes that a client asked that the fetch under way end.
    pub fn cancel_fetch(&self) {
        self.is_canceled.set(true);
    }

    /// Returns whether a client asked for that since the last call.
    pub fn take_cancel(&self) -> bool {
        self.is_canceled.replace(false)
    }

    /// Notes what a client that makes the node fetch says of the file, or that its query is invalid.
    pub fn expect(&self, expected: Option<ExpectedFile>) {
        self.expected.set(expected);
    }

    /// Returns what the last such client says of the file, or none if its query is invalid.
    pub fn expected(&self) -> Option<ExpectedFile> {
        self.expected.get()
    }

    /// Keeps when the node began to answer from its feed.
    pub fn note_start(&self, seconds: u64) {
        self.started.set(seconds);
    }

    /// Keeps what the node is at the beginning of a turn.
    pub fn begin_turn(&self, facts: TurnFacts) {
        self.facts.set(facts);
    }

    /// Names these sites in the log from now on, and counts the requests of each from 0.
    ///
    /// # Errors
    ///
    /// Running out of memory.
    pub fn name_sites(&self, alloc: Global, sites: &[NamedSite]) -> Result<(), AllocError> {
        let mut names = Vec::with_capacity(alloc, sites.len())?;
        for site in sites {
            let name = Vec::from_slice(alloc, &site.name)?;
            names.push(SiteName::new(name))?;
        }
        match self.counts.try_borrow_mut() {
            Ok(mut counts) => counts.metrics.name_sites(alloc, names),
            Err(_) => Err(AllocError),
        }
    }

    /// Names the sites that were read again. If memory runs out, the sites have no names.
    pub fn rename_sites(&self, rt: &HostRuntime, sites: &[NamedSite]) {
        self.renamed.set(Instant::now(rt).ok());
        if self.name_sites(rt.alloc(), sites).is_err() {
            let _ = self.name_sites(rt.alloc(), &[]);
        }
    }

    /// Returns the place of the site that responded to a request, if the last byte of its head was received this many
    /// microseconds ago and no sites were read since. Otherwise another site may have the place.
    pub fn site_since(&self, rt: &HostRuntime, site: Option<usize>, micros: u64) -> Option<usize> {
        let Some(renamed) = self.renamed.get() else {
            return site;
        };
        let now = Instant::now(rt).ok()?;
        if now.saturating_duration_since(renamed).as_micros() > micros as u128 {
            site
        } else {
            None
        }
    }

    /// Counts a connection that is accepted.
    pub fn accept(&self) {
        if let Ok(mut counts) = self.counts.try_borrow_mut() {
            counts.accept();
        }
    }

    /// Counts a connection that is closed.
    pub fn close(&self, cause: CloseCause) {
        if let Ok(mut counts) = self.counts.try_borrow_mut() {
            counts.close(cause);
        }
    }

    /// Observes how many microseconds a turn or a commit took.
    pub fn observe(&self, timing: Timing, micros: u64) {
        if let Ok(mut counts) = self.counts.try_borrow_mut() {
            counts.metrics.observe(timing, micros);
        }
    }

    /// Counts a fetch with this outcome.
    pub fn count_fetch(&self, outcome: FetchOutcome) {
        if let Ok(mut counts) = self.counts.try_borrow_mut() {
            counts.end_fetch(outcome);
        }
    }

    // Keeps the fetch of a release that it activated, unless memory runs out.
    fn note_activation(&self, name: &ReleaseName, outcome: FetchOutcome, seconds: u64) {
        if let (Ok(name), Ok(mut activations)) = (
            name.try_clone(),
            self.activations.try_borrow_mut(),
        ) {
            let _ = activations.put(LastFetch {
                name,
                outcome: outcome.name(),
                seconds,
            });
        }
    }

    /// Counts the fetch of a release that ended, and keeps it as the last one of its package, unless memory runs out.
    pub fn end_fetch(&self, name: ReleaseName, outcome: FetchOutcome, seconds: u64) {
        self.count_fetch(outcome);
        if matches!(outcome, FetchOutcome::Activated) {
            self.note_activation(&name, outcome, seconds);
        }
        if let Ok(mut fetches) = self.fetches.try_borrow_mut() {
            let _ = fetches.put(LastFetch {
                name,
                outcome: outcome.name(),
                seconds,
            });
        }
    }

    /// Returns the response to a request for `/feed`, or to a GET or HEAD of a target below it. Returns none for any
    /// other request.
    ///
    /// # Errors
    ///
    /// Running out of memory.
    pub fn feed_response<K: Keep>(
        &self,
        alloc: Global,
        received: &ReceivedRequest<'_>,
        persists: bool,
        policy: &FetchPolicy<'_>,
        feed: &Feed<K>,
    ) -> Result<Option<ResponseText>, AllocError>
        ensures value { IfOk result (IsFeedResponse policy.now received.now.bytes.now persists) }
        ensures says { IfOk result (λ found. IfSome found (λ response. SaysWhetherItKeeps persists response.bytes)) }
    {
        let (Ok(fetches), Ok(activations)) = (
            self.fetches.try_borrow(),
            self.activations.try_borrow(),
        ) else {
            return Err(AllocError);
        };
        let activity = Activity {
            started: self.started.get(),
            fetches: fetches.as_slice(),
            activations: activations.as_slice(),
        };
        respond_about_feed(alloc, received, persists, policy, feed, activity)
    }

    /// Counts lines of the log that were not written.
    pub fn drop_lines(&self, lines: u64) {
        if let Ok(mut counts) = self.counts.try_borrow_mut() {
            counts.drop_lines(lines);
        }
    }

    /// Counts a request that was responded to, and appends its line.
    ///
    /// # Errors
    ///
    /// Running out of memory. The request is counted, and a part of the line may be written then.
    pub fn record(
        &self,
        out: &mut Vec<u8>,
        policy: LogPolicy,
        exchange: &LoggedExchange<'_>,
    ) -> Result<(), AllocError> {
        match self.counts.try_borrow_mut() {
            Ok(mut counts) => record_exchange(out, &mut counts.metrics, policy, exchange),
            Err(_) => Err(AllocError),
        }
    }

    /// Returns the response to a request for a report, from what was counted, these active releases, which have series
    /// in any case or only if there are at most 256, and a line for each wanted one that is missing. Returns none for
    /// any other request.
    ///
    /// # Errors
    ///
    /// Running out of memory.
    pub fn report(
        &self,
        alloc: Global,
        request: &IncomingRequest<'_>,
        version: &[u8],
        releases: &[ReleaseTime<'_>],
        has_all_series: bool,
        missing: &[u8],
    ) -> Result<Option<ReportResponse>, AllocError>
        ensures value { IfOk result
            (IsSomeResponse request.now.received.bytes.now request.now.persists releases.now has_all_series
            missing.now) }
        ensures says { IfOk result (λ found. IfSome found (λ reply.
            SaysWhetherItKeeps request.now.persists reply.bytes.items)) }
    {
        let facts = self.facts.get();
        match self.counts.try_borrow() {
            Ok(counts) => {
                let gauges = Gauges {
                    version,
                    open: counts.open,
                    held_bytes: facts.held_bytes,
                    releases,
                    has_all_series,
                    since_switch: facts.since_switch,
                };
                respond_about_node(
                    alloc,
                    &request.received,
                    request.persists,
                    &counts.metrics,
                    &gauges,
                    missing,
                )
            }
            Err(_) => Err(AllocError),
        }
    }

    /// Returns the response of a node that starts to a request for a report, if its client may have it. Returns none
    /// for any other request.
    ///
    /// # Errors
    ///
    /// Running out of memory.
    pub fn starting_report(
        &self,
        alloc: Global,
        request: &ReportRequest<'_>,
        version: &[u8],
    ) -> Result<Option<ReportResponse>, AllocError>
        ensures value { IfOk result
            (IsSomeStartingResponse request.now.is_local request.now.is_open request.now.received.bytes.now
            request.now.keeps) }
        ensures says { IfOk result (λ found. IfSome found (λ reply.
            SaysWhetherItKeeps request.now.keeps reply.bytes.items)) }
    {
        match self.counts.try_borrow() {
            Ok(counts) => respond_at_start(alloc, request, &counts.metrics, version, counts.open),
            Err(_) => Err(AllocError),
        }
    }
}

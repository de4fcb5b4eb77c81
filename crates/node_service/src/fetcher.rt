//! Fetches releases for a node, one request at a time, between the turns of its loop.
ghost use Rattle.std.specs.Prelude.{◌≤◌};
ghost use Rattle.feed_limits.specs.Limits.{piece_limit};
ghost use Rattle.node_service.specs.Runs.{IsLaterNode};

use crate::exchange::{FetchStep, RunningExchange};
use crate::fetch_report::{FetchReport, reason_of};
use crate::fetched::{
    EventLines, counts_of_active, is_answered, print_counts, rows_of_active, take_part,
    take_response,
};
use crate::responder::FeedResponder;
use crate::source_addrs::SourceAddrs;
use crate::watched_file::WatchedFile;
use feed_dial::DialFault;
use feed_fetch::{
    FetchEnd, FetchEvent, Next, Printer, RequestFault, Stop, print_end, print_name_fault,
};
use feed_http::is_host;
use feed_keep::Keep;
use feed_limits::PIECE_LIMIT;
use feed_model::Reply;
use feed_names::NameFault;
use feed_options::{NodeOptions, Source};
use node_file_checks::{FileCheck, HeldList, Mismatch, gate_by};
use node_monitoring::Timing;
use node_server::{OutgoingRequest, ServedNode, Server, StreamKind};
use node_state::{FetchOutcome, NodeState, unix_seconds};
use std::io;
use std::io::{ErrorKind, Write};
use std::time::Instant;

// The most bytes of a request if the rows of a list are counted as it arrives, so that this takes about a millisecond.
const COUNTED_PIECE: u64 = 131_072;

/// A node that responds from its feed.
pub type FeedNode<'a, K> = ServedNode<'a, K, FeedResponder<'a>>;

/// Carries the requests of the fetches of a node, and their responses, one at a time.
#[derive(Drop)]
pub struct Fetcher<'a> {
    rt: &'a HostRuntime,
    source: Option<Source<'a>>,
    /// How many milliseconds a request and its response may take, beside a second for each 65,536 bytes.
    limit: u64,
    addrs: SourceAddrs,
    /// The file of the database.
    file: WatchedFile<'a>,
    state: &'a NodeState,
    running: Option<RunningExchange>,
    /// The facts of the last fetch.
    report: FetchReport<'a>,
    /// The lines of the fetches that ended, which are not printed yet.
    pub notes: Vec<u8>,
}

impl<'a> Fetcher<'a> {
    pub fn new(
        rt: &'a HostRuntime,
        options: NodeOptions<'a>,
        addrs: SourceAddrs,
        file: WatchedFile<'a>,
        state: &'a NodeState,
    ) -> Fetcher<'a> {
        Fetcher {
            rt,
            source: options.source,
            limit: options.limit,
            addrs,
            file,
            state,
            running: None,
            report: FetchReport::new(rt, "", false, 0),
            notes: Vec::new(rt.alloc()),
        }
    }

    /// Begins to fetch the release that a client asked for, if one did. The client receives a line for each event, or
    /// for the fault if the node has no server to fetch from.
    #[tactic(auto, using(node_machine::proofs::Later::later_after))]
    pub fn begin<K: Keep>(&mut self, server: &mut Server, node: &mut FeedNode<'_, K>)
        ensures { IsLaterNode node.old node.new }
    {
        let Some(source) = self.source else {
            return self.end_without_source(server, node);
        };
        match node.begin_fetch(piece_of(source)) {
            None => {}
            Some(Ok(())) => {
                let was_reported = is_answered(node);
                self.report = FetchReport::new(
                    self.rt,
                    source.addr,
                    was_reported,
                    rows_of_active(node),
                );
                self.addrs.renew(self.rt, source.addr);
                let Some(expected) = self.state.expected() else {
                    return self.end_by(server, node, "Query", 2);
                };
                let gate = gate_by(self.rt.alloc(), source.max_shrink, expected.is_accepted);
                let check = FileCheck::new(expected, source.has_any_type, gate);
                let running = RunningExchange::new(self.rt.alloc(), piece_of(source), check);
                self.send_next(server, node, running);
            }
            Some(Err(fault)) => {
                self.report = FetchReport::new(self.rt, source.addr, false, 0);
                self.refuse_name(server, fault);
            }
        }
    }

    // Ends a fetch that a client asked for, since the node has no server to fetch from.
    #[tactic(auto, using(node_machine::proofs::Later::later_after))]
    fn end_without_source<K: Keep>(&mut self, server: &mut Server, node: &mut FeedNode<'_, K>)
        ensures { IsLaterNode node.old node.new }
    {
        match node.begin_fetch(COUNTED_PIECE) {
            None => {}
            Some(Ok(())) => {
                self.report = FetchReport::new(self.rt, "", false, 0);
                self.end_by(server, node, "NoSource", 2);
            }
            Some(Err(fault)) => {
                self.report = FetchReport::new(self.rt, "", false, 0);
                self.refuse_name(server, fault);
            }
        }
    }

    // Reports a name that is not one of a release.
    fn refuse_name(&mut self, server: &mut Server, fault: NameFault) {
        let mut lines = self.lines();
        let _ = print_name_fault(fault, &mut lines);
        let mut reason = Vec::new(self.rt.alloc());
        let _ = write!(&mut reason, " {fault}");
        self.note(b"-", FetchOutcome::Refused, &reason);
        self.state.count_fetch(FetchOutcome::Refused);
        finish(server, lines);
    }

    /// Ends the fetch that is under way, or that was asked for in this turn. What it stored is kept, so another fetch
    /// of the release continues.
    #[tactic(auto, using(node_machine::proofs::Later::later_after))]
    pub fn cancel<K: Keep>(&mut self, server: &mut Server, node: &mut FeedNode<'_, K>)
        ensures { IsLaterNode node.old node.new }
    {
        self.begin(server, node);
        if self.running.take().is_some() {
            let _ = server.take_request();
            self.end(server, node, FetchEnd::Canceled);
        }
    }

    // Returns whether the fetch has used its time.
    fn is_late(&self) -> bool {
        let Some(source) = self.source else {
            return false;
        };
        let Some(begun) = self.report.begun else {
            return false;
        };
        match Instant::now(self.rt) {
            Ok(now) => now.saturating_duration_since(begun).as_secs() >= source.fetch_limit,
            Err(_) => false,
        }
    }

    // Returns the step, or the end of the fetch if it has used its time and waits.
    fn in_time(&self, step: FetchStep) -> FetchStep {
        match step {
            FetchStep::Wait | FetchStep::Again | FetchStep::Retry if self.is_late() =>
                FetchStep::End(FetchEnd::TimedOut),
            step => step,
        }
    }

    fn lines(&self) -> Printer<Vec<u8>> {
        Printer::new(Vec::new(self.rt.alloc()))
    }

    // Reports the end of a fetch, and completes the response to its client.
    fn end<K: Keep>(&mut self, server: &mut Server, node: &mut FeedNode<'_, K>, end: FetchEnd)
        ensures { IsLaterNode node.old node.new }
    {
        let mut lines = self.lines();
        if let Some(name) = node.end_fetch() {
            let status = print_end(node.feed(), &name, end, &mut lines);
            let outcome = FetchOutcome::after(end, status, self.report.was_reported);
            let reason = reason_of(self.rt.alloc(), node.feed(), &name, end);
            self.note(name.text(), outcome, &reason);
            self.state.end_fetch(name, outcome, unix_seconds(self.rt));
        }
        finish(server, lines);
    }

    // Adds the line of a fetch that ended to the notes. If memory runs out, there is none.
    fn note(&mut self, name: &[u8], outcome: FetchOutcome, reason: &[u8]) {
        let start = self.notes.len();
        let written = self
            .report
            .write_line(self.rt, &mut self.notes, name, outcome, reason);
        if written.is_err() {
            self.notes.truncate(start);
        }
    }

    // Ends a fetch with an outcome for a reason, and reports both.
    fn end_with<K: Keep>(
        &mut self,
        node: &mut FeedNode<'_, K>,
        outcome: FetchOutcome,
        reason: &[u8],
    )
        ensures { IsLaterNode node.old node.new }
    {
        if let Some(name) = node.end_fetch() {
            self.note(name.text(), outcome, reason);
            self.state.end_fetch(name, outcome, unix_seconds(self.rt));
        }
    }

    // Ends a fetch by a fault that no other fetch has, with an exit status.
    fn end_by<K: Keep>(
        &mut self,
        server: &mut Server,
        node: &mut FeedNode<'_, K>,
        fault: &str,
        status: u8,
    )
        ensures { IsLaterNode node.old node.new }
    {
        let mut reason = Vec::new(self.rt.alloc());
        let _ = write!(&mut reason, " {fault}");
        self.end_with(node, FetchOutcome::Refused, &reason);
        let mut lines = self.lines();
        let _ = lines.print(format_args!("kbfeed: {fault}"));
        let _ = lines.print(format_args!("status {status}"));
        finish(server, lines);
    }

    // Ends a fetch whose list is held.
    fn hold<K: Keep>(&mut self, server: &mut Server, node: &mut FeedNode<'_, K>, held: HeldList)
        ensures { IsLaterNode node.old node.new }
    {
        let HeldList { counts, before } = held;
        let rows = counts.rows;
        let mut reason = Vec::new(self.rt.alloc());
        let _ = write!(&mut reason, " rows {rows} before {before}");
        self.end_with(node, FetchOutcome::Held, &reason);
        let mut lines = self.lines();
        print_counts(&mut lines, counts, before);
        let _ = lines.print(format_args!("held rows {rows} before {before}"));
        let _ = lines.print("status 1");
        finish(server, lines);
    }

    // Ends a fetch whose file is not the expected one.
    fn refuse<K: Keep>(
        &mut self,
        server: &mut Server,
        node: &mut FeedNode<'_, K>,
        mismatch: Mismatch,
    )
        ensures { IsLaterNode node.old node.new }
    {
        match mismatch {
            Mismatch::Rows(held) => self.hold(server, node, held),
            Mismatch::Memory => {
                let stop = Stop::Request(RequestFault::Dial(DialFault::Memory));
                self.end(server, node, FetchEnd::Stopped(stop));
            }
            _ => self.end_by(server, node, mismatch.fault(), 1),
        }
    }

    // Sends the next request of a fetch. If there is none, the fetch is over.
    #[tactic(auto, using(node_machine::proofs::Later::later_after))]
    fn send_next<K: Keep>(
        &mut self,
        server: &mut Server,
        node: &mut FeedNode<'_, K>,
        mut running: RunningExchange,
    )
        ensures { IsLaterNode node.old node.new }
    {
        match self.try_send_next(server, node, &mut running) {
            Ok(true) => self.running = Some(running),
            Ok(false) => self.end(server, node, FetchEnd::Done),
            Err(error) => {
                if self.report.fault.is_none() {
                    self.report.fault = Some(error.kind());
                }
                let fault = match error.kind() {
                    ErrorKind::OutOfMemory => DialFault::Memory,
                    _ => DialFault::Connect,
                };
                let stop = Stop::Request(RequestFault::Dial(fault));
                self.end(server, node, FetchEnd::Stopped(stop));
            }
        }
    }

    fn try_send_next<K: Keep>(
        &self,
        server: &mut Server,
        node: &mut FeedNode<'_, K>,
        running: &mut RunningExchange,
    ) -> io::Result<bool>
        ensures { IsLaterNode node.old node.new }
    {
        let Some(source) = self.source else {
            return Ok(false);
        };
        let Some(addr) = self.addrs.get(running.at) else {
            return Err(io::Error::from(ErrorKind::AddrNotAvailable));
        };
        let host = source.addr.as_bytes();
        if !is_host(host) {
            return Ok(false);
        }
        let front = running.check.front_range(piece_of(source));
        let Some(next) = node.next_request(host, front)? else {
            return Ok(false);
        };
        running.restart();
        server.begin_request(self.rt, addr, self.limit, next.text)?;
        Ok(true)
    }

    /// Takes what has arrived of the response to the last request. Once it is complete, sends the next request of the
    /// fetch. Returns whether the file of the database is still at its path. If not, what was stored is lost, and not
    /// reported.
    #[tactic(auto, using(node_machine::proofs::Later::later_after))]
    pub fn advance<K: Keep>(&mut self, server: &mut Server, node: &mut FeedNode<'_, K>) -> bool
        ensures { IsLaterNode node.old node.new }
    {
        let Some(mut running) = self.running.take() else {
            return true;
        };
        let mut events = EventLines {
            lines: self.lines(),
            has_stored: false,
            has_switched: false,
        };
        let begun = Instant::now(self.rt).ok();
        let step = self.take_arrived(server, node, &mut running, &mut events);
        if events.has_stored {
            self.observe_commit(begun);
        }
        let lines = self.print_switch(node, events);
        if !lines.is_empty() && !self.file.is_there() {
            return false;
        }
        server.send_to_streams(StreamKind::Fetch, &lines);
        let step = self.in_time(step);
        self.follow(server, node, running, step);
        true
    }

    // Observes how long a step took in which the keeper of the feed committed a change.
    fn observe_commit(&self, begun: Option<Instant>) {
        if let (Some(begun), Ok(now)) = (begun, Instant::now(self.rt)) {
            let passed = now.saturating_duration_since(begun).as_micros();
            self.state
                .observe(Timing::Commit, passed.min(u64::MAX as u128) as u64);
        }
    }

    fn follow<K: Keep>(
        &mut self,
        server: &mut Server,
        node: &mut FeedNode<'_, K>,
        mut running: RunningExchange,
        step: FetchStep,
    )
        ensures { IsLaterNode node.old node.new }
    {
        match step {
            FetchStep::Send => self.send_next(server, node, running),
            FetchStep::Retry => {
                running.at = running.at.saturating_add(1);
                self.send_next(server, node, running);
            }
            FetchStep::End(end) => {
                let _ = server.take_request();
                self.end(server, node, end);
            }
            FetchStep::Refuse(mismatch) => {
                let _ = server.take_request();
                self.refuse(server, node, mismatch);
            }
            _ => self.running = Some(running),
        }
    }

    // Takes the parts of the response that have arrived, or the response.
    #[tactic(auto, using(node_machine::proofs::Later::later_after))]
    fn take_arrived<K: Keep>(
        &mut self,
        server: &mut Server,
        node: &mut FeedNode<'_, K>,
        running: &mut RunningExchange,
        events: &mut EventLines,
    ) -> FetchStep
        ensures { IsLaterNode node.old node.new }
    {
        let Some(outgoing) = server.outgoing() else {
            return FetchStep::Wait;
        };
        running.receive(node, outgoing.received());
        let step = match self.take(node, running, outgoing, events) {
            FetchStep::Again => self.take(node, running, outgoing, events),
            step => step,
        };
        outgoing.discard(running.room(node));
        step
    }

    // Takes the next part of a whole file that has arrived, or the response.
    #[tactic(auto, using(node_machine::proofs::Later::later_after))]
    fn take<K: Keep>(
        &mut self,
        node: &mut FeedNode<'_, K>,
        running: &mut RunningExchange,
        outgoing: &OutgoingRequest,
        events: &mut EventLines,
    ) -> FetchStep
        ensures { IsLaterNode node.old node.new }
    {
        self.report.fault = outgoing.fault();
        match running.look(node, outgoing) {
            FetchStep::Part => {
                self.report.add(node);
                take_part(self.rt, node, running, events)
            }
            FetchStep::Reply => {
                self.report.add(node);
                take_response(self.rt, node, &mut running.check, events)
            }
            FetchStep::Close(end) => {
                node.end_connection(end);
                self.report.add(node);
                take_response(self.rt, node, &mut running.check, events)
            }
            step => step,
        }
    }

    // Returns the lines of the events. The counts of a release that the feed switched to are ahead of that event.
    fn print_switch<K: Keep>(&self, node: &FeedNode<'_, K>, events: EventLines) -> Vec<u8> {
        let EventLines {
            mut lines,
            has_stored: _,
            has_switched,
        } = events;
        if has_switched {
            if let Some(counts) = counts_of_active(node) {
                print_counts(&mut lines, counts, self.report.before);
            }
            let _ = lines.print(FetchEvent::Accepted(Reply::Activated));
        }
        lines.into_writer()
    }
}

// Returns the most bytes of a request, 1 to 1,048,576.
fn piece_of(source: Source<'_>) -> u64
    ensures least { 1 ≤ result }
    ensures most { result ≤ piece_limit }
{
    let most = match source.max_shrink {
        Some(_) => COUNTED_PIECE,
        None => PIECE_LIMIT as u64,
    };
    source.piece.max(1).min(most)
}

// Returns whether nothing is missing of the release that is fetched.
pub(crate) fn is_done<K: Keep>(node: &FeedNode<'_, K>) -> bool {
    match node.fetching() {
        Some(fetching) => fetching.fetch.next(node.feed(), &fetching.name) == Next::Done,
        None => true,
    }
}

// Sends the last lines to the client of a fetch, and completes the response to it.
fn finish(server: &mut Server, lines: Printer<Vec<u8>>) {
    server.send_to_streams(StreamKind::Fetch, &lines.into_writer());
    server.finish_streams(StreamKind::Fetch);
}

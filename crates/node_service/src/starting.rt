//! Opens the feed of a node in steps, between the turns of its loop.
ghost use Rattle.std.specs.Prelude.{IfErr, IfOk};
ghost use Rattle.feed_releases.specs.Openings.{IsOpeningStep};
ghost use Rattle.node_service.specs.Starting.{IsLaterStart, IsStartFault};

use crate::node_loop::{End, NodeSetup};
use crate::starting_responder::StartingResponder;
use feed_keep::{Keep, ListKeep};
use feed_model::KeepFault;
use feed_releases::{Feed, Opening, OpeningStep};
use mio::Events;
use node_machine::NodeMachine;
use node_server::{ServedNode, Server};
use node_state::{AccessLog, NodeLog, day_number, today};
use node_table::Table;
use std::alloc::AllocError;
use std::io;
use std::io::Write;
use std::time::Instant;

// The milliseconds before the first turn, so that no client gets 503 from a node with small lists.
const FIRST_MILLIS: u64 = 50;

// The milliseconds of steps between two turns.
const STEPS_MILLIS: u64 = 2;

/// Why a node ends before its feed is open.
#[derive(Drop)]
pub enum StartFault {
    /// It ends as one that answers readers does.
    Ended(End),
    /// The feed does not open.
    Keeper(KeepFault),
}

// A node without releases, which responds that it starts.
type StartingNode<'a> = ServedNode<'a, ListKeep, StartingResponder<'a>>;

/// Opens a feed in steps, and runs a turn of a node after 50 ms and then after each 2 ms of them. This node responds to
/// requests for reports, as one without an active release, and to all others by 503. Writes the lines of the log after
/// each turn. Once the feed is open, the connections of this node have 250 ms to end.
pub fn start<K: Keep, W: Write, F: Write>(
    rt: &HostRuntime,
    opening: Opening<K>,
    server: &mut Server,
    setup: &NodeSetup<'_>,
    out: &mut NodeLog<W, F>,
) -> Result<Feed<K>, StartFault>
    ensures opened { IfOk result (λ feed. IsOpeningStep opening (OpeningStep.Opened feed)) }
    ensures fault { IfErr result (IsStartFault opening) }
{
    let Ok(mut node) = starting_node(rt, server.clients(), setup) else {
        return Err(StartFault::Ended(End::Memory));
    };
    let Ok(mut starting) = Starting::new(rt, server, setup, out) else {
        return Err(StartFault::Ended(End::Memory));
    };
    let feed = match starting.open(opening, &mut node, server) {
        Ok(feed) => feed,
        Err(fault) => return Err(fault),
    };
    match starting.end(&mut node, server) {
        Ok(()) => Ok(feed),
        Err(end) => Err(StartFault::Ended(end)),
    }
}

// Returns a node without releases and without connections, which fetches nothing.
fn starting_node<'a>(
    rt: &HostRuntime,
    clients: usize,
    setup: &'a NodeSetup<'_>,
) -> Result<StartingNode<'a>, AllocError> {
    let table = Table::new(rt.alloc(), clients)?;
    let Ok(feed) = Feed::open(rt.alloc(), ListKeep::new(rt.alloc())) else {
        return Err(AllocError);
    };
    let responder = StartingResponder {
        state: setup.state,
        version: setup.options.version_number().as_bytes(),
        has_open_reports: setup.options.log.has_open_reports,
    };
    let day = today(day_number(rt));
    Ok(NodeMachine::new(rt.alloc(), table, feed, responder, None, day))
}

// The parts of a node that starts, beside its connections.
#[derive(Drop)]
struct Starting<'a, W: Write, F: Write> {
    rt: &'a HostRuntime,
    events: Events,
    log: AccessLog<'a, W, F>,
    /// When the last turn ended, or the first step began.
    last_turn: Option<Instant>,
    /// The milliseconds from then to the next turn.
    until_turn: u64,
}

impl<'a, W: Write, F: Write> Starting<'a, W, F> {
    fn new(
        rt: &'a HostRuntime,
        server: &Server,
        setup: &'a NodeSetup<'_>,
        out: &'a mut NodeLog<W, F>,
    ) -> Result<Starting<'a, W, F>, AllocError> {
        let Ok(events) = server.events() else {
            return Err(AllocError);
        };
        Ok(Starting {
            rt,
            events,
            log: AccessLog::new(rt, out, setup.state, setup.options.log),
            last_turn: Instant::now(rt).ok(),
            until_turn: FIRST_MILLIS,
        })
    }

    // Opens the feed in steps, and runs a turn whenever one is due.
    #[tactic(auto, using(node_machine::proofs::Later::later_after))]
    fn open<K: Keep>(
        &mut self,
        opening: Opening<K>,
        node: &mut StartingNode<'_>,
        server: &mut Server,
    ) -> Result<Feed<K>, StartFault>
        ensures opened { IfOk result (λ feed. IsOpeningStep opening (OpeningStep.Opened feed)) }
        ensures fault { IfErr result (IsStartFault opening) }
        ensures later { IsLaterStart node.old node.new }
    {
        let mut rest = opening;
        for _ in 0..u64::MAX {
            rest = match rest.step() {
                Ok(OpeningStep::Opened(feed)) => return Ok(feed),
                Ok(OpeningStep::Pending(next)) => next,
                Err(fault) => return Err(StartFault::Keeper(fault.cause)),
            };
            if let Err(end) = self.turn_if_due(node, server) {
                return Err(StartFault::Ended(end));
            }
        }
        Err(StartFault::Ended(End::Memory))
    }

    fn turn_if_due(&mut self, node: &mut StartingNode<'_>, server: &mut Server) -> Result<(), End>
        ensures { IsLaterStart node.old node.new }
    {
        if !self.is_due() {
            return Ok(());
        }
        server.skip_wait();
        let outcome = server.turn(self.rt, node, &mut self.events, &mut self.log);
        self.last_turn = Instant::now(self.rt).ok();
        self.until_turn = STEPS_MILLIS;
        self.end_turn(outcome)
    }

    // Returns whether the steps since the last turn took so long that the next one is due.
    fn is_due(&self) -> bool {
        match self.millis() {
            Some(millis) => self.until_turn <= millis,
            None => true,
        }
    }

    // Returns the milliseconds since the last turn.
    fn millis(&self) -> Option<u64> {
        let last = self.last_turn?;
        let now = Instant::now(self.rt).ok()?;
        let passed = now.saturating_duration_since(last).as_millis();
        Some(passed.min(u64::MAX as u128) as u64)
    }

    // Ends the connections.
    fn end(&mut self, node: &mut StartingNode<'_>, server: &mut Server) -> Result<(), End>
        ensures { IsLaterStart node.old node.new }
    {
        let outcome = server.drain(self.rt, node, &mut self.events, &mut self.log);
        self.end_turn(outcome)
    }

    // Writes the lines of the log, if the sockets did not fail.
    fn end_turn(&mut self, outcome: io::Result<()>) -> Result<(), End> {
        if let Err(fault) = outcome {
            return Err(End::Sockets(fault));
        }
        self.log.flush();
        Ok(())
    }
}

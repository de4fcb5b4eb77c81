//! Runs a node: the loop that ends only when its sockets or the file of its database fail.
ghost use Rattle.std.specs.Prelude.{◌≡◌};
ghost use Rattle.node_table.specs.Tables.{size_of};
ghost use Rattle.node_service.specs.Runs.{HasGoneOn, IsLaterNode};

use crate::fetcher::{FeedNode, Fetcher};
use crate::reloader::Reloader;
use crate::responder::FeedResponder;
use crate::source_addrs::SourceAddrs;
use crate::wanted::WantedPackage;
use crate::watched_file::WatchedFile;
use feed_keep::Keep;
use feed_options::{NodeOptions, SitePath};
use feed_releases::Feed;
use mio::Events;
use node_machine::NodeMachine;
use node_monitoring::Timing;
use node_server::{Server, Socket};
use node_sites::NodeSites;
use node_state::{AccessLog, NodeLog, NodeState, TurnFacts, day_number, today, unix_seconds};
use node_table::Table;
use std::io;
use std::io::Write;
use std::time::Instant;

/// Why a node ends.
#[derive(Drop)]
pub enum End {
    Memory,
    /// The poll failed.
    Sockets(io::Error),
    /// The file of the database was removed or replaced.
    FileGone,
}

/// The setup of a node, beside its feed and its server. The start and the run of a node have the same, so its counters
/// begin with the start.
#[derive(Drop)]
pub struct NodeSetup<'a> {
    pub options: NodeOptions<'a>,
    /// The token that authorizes a fetch, and the addresses of the server that releases are fetched from.
    pub token: Option<&'a [u8]>,
    pub addrs: SourceAddrs,
    /// The sites of hosts, on which responses and their tags depend, each with the version and the settings.
    pub sites: NodeSites,
    /// The packages that readers wait for.
    pub wanted: &'a [WantedPackage],
    pub state: &'a NodeState,
    /// The file of the database.
    pub file: WatchedFile<'a>,
}

/// Answers readers from a feed, until the poll fails, or the file of the database is gone as a fetch stores in it. If
/// there is a source, a client that has the token can have a release fetched from there. Writes the lines of the log
/// after each turn. Returns why the node ends, and the keeper of the feed.
pub fn run<K: Keep, W: Write, F: Write>(
    rt: &HostRuntime,
    feed: Feed<K>,
    server: &mut Server,
    setup: NodeSetup<'_>,
    out: &mut NodeLog<W, F>,
) -> (End, K)
    ensures { HasGoneOn feed result }
{
    let Ok(table) = Table::new(rt.alloc(), server.clients()) else {
        return (End::Memory, feed.restart());
    };
    run_over(rt, feed, server, setup, out, table)
}

// Returns whether a node with these options has a folder of site files.
fn has_folder(options: NodeOptions<'_>) -> bool {
    match options.site {
        SitePath::Folder(_) => true,
        SitePath::File(_) | SitePath::None => false,
    }
}

// Runs a node over its table.
fn run_over<'a, K: Keep, W: Write, F: Write>(
    rt: &'a HostRuntime,
    feed: Feed<K>,
    server: &mut Server,
    setup: NodeSetup<'a>,
    out: &'a mut NodeLog<W, F>,
    table: Table<Socket>,
) -> (End, K)
    requires { size_of table ≡ 0 }
    ensures { HasGoneOn feed result }
{
    let state = setup.state;
    let responder = FeedResponder {
        state,
        sites: setup.sites,
        version: setup.options.version_number().as_bytes(),
        has_open_reports: setup.options.log.has_open_reports,
        has_all_series: setup.options.log.has_all_series,
        wanted: setup.wanted,
        has_folder: has_folder(setup.options),
    };
    let day = day_number(rt);
    let mut node = NodeMachine::new(rt.alloc(), table, feed, responder, setup.token, today(day));
    let _ = node.keep_releases();
    state.note_start(unix_seconds(rt));
    let mut running = RunningNode {
        rt,
        state,
        fetcher: Fetcher::new(rt, setup.options, setup.addrs, setup.file, state),
        reloader: Reloader::new(rt, setup.options, state),
        log: AccessLog::new(rt, out, state, setup.options.log),
        day,
        switched: None,
    };
    let end = running.run(&mut node, server);
    (end, node.into_keeper())
}

// The parts of a running node beside its connections and its feed.
#[derive(Drop)]
struct RunningNode<'a, W: Write, F: Write> {
    rt: &'a HostRuntime,
    state: &'a NodeState,
    fetcher: Fetcher<'a>,
    reloader: Reloader<'a>,
    log: AccessLog<'a, W, F>,
    /// The number of the node's day.
    day: i32,
    /// When the active releases last changed.
    switched: Option<Instant>,
}

impl<'a, W: Write, F: Write> RunningNode<'a, W, F> {
    #[tactic(auto, using(node_machine::proofs::Later::later_after))]
    fn run<K: Keep>(&mut self, node: &mut FeedNode<'_, K>, server: &mut Server) -> End
        ensures { IsLaterNode node.old node.new }
    {
        let mut events = match server.events() {
            Ok(events) => events,
            Err(_) => return End::Memory,
        };
        for _ in 0..u64::MAX {
            if let Some(end) = self.turn(node, server, &mut events) {
                return end;
            }
        }
        End::Memory
    }

    // Runs a turn: the connections, the log, and a step of the folder's reading and of the fetch that are under way.
    // Returns why the node ends.
    #[tactic(auto, using(node_machine::proofs::Later::later_after))]
    fn turn<K: Keep>(
        &mut self,
        node: &mut FeedNode<'_, K>,
        server: &mut Server,
        events: &mut Events,
    ) -> Option<End>
        ensures { IsLaterNode node.old node.new }
    {
        self.begin_day(node);
        self.state.begin_turn(self.facts(node.table().bytes_held()));
        if let Err(fault) = server.turn(self.rt, node, events, &mut self.log) {
            return Some(End::Sockets(fault));
        }
        if let Some(micros) = server.turn_micros() {
            self.state.observe(Timing::Turn, micros);
        }
        self.log.flush();
        self.reloader.advance(server, node);
        // The fetch waits until the list is read as far as it has arrived. So its last piece leaves little to read.
        if node.catch_up() {
            server.skip_wait();
            return None;
        }
        let was_busy = node.fetching().is_some();
        if !self.fetcher.advance(server, node) {
            return Some(End::FileGone);
        }
        self.cancel(node, server);
        self.note_end(node, was_busy);
        self.fetcher.begin(server, node);
        self.log.print_notes(&mut self.fetcher.notes);
        None
    }

    // Ends the fetch that is under way, if a client that has the token asked for that.
    #[tactic(auto, using(node_machine::proofs::Later::later_same))]
    fn cancel<K: Keep>(&mut self, node: &mut FeedNode<'_, K>, server: &mut Server)
        ensures { IsLaterNode node.old node.new }
    {
        if self.state.take_cancel() {
            self.fetcher.cancel(server, node);
        }
    }

    // Begins the day of the clock, if it is another one than before.
    fn begin_day<K: Keep>(&mut self, node: &mut FeedNode<'_, K>)
        ensures { IsLaterNode node.old node.new }
    {
        let day = day_number(self.rt);
        if day != self.day {
            self.day = day;
            node.begin_day(today(day));
            let _ = node.keep_releases();
        }
    }

    fn facts(&self, held_bytes: usize) -> TurnFacts {
        TurnFacts {
            held_bytes: held_bytes as u64,
            since_switch: self.since_switch(),
        }
    }

    // Returns the seconds since the active releases last changed.
    fn since_switch(&self) -> Option<u64> {
        let switched = self.switched?;
        let now = Instant::now(self.rt).ok()?;
        Some(now.saturating_duration_since(switched).as_secs())
    }

    // Notes that a fetch ended, if one was under way and is not any more.
    fn note_end<K: Keep>(&mut self, node: &mut FeedNode<'_, K>, was_busy: bool)
        ensures { node.new ≡ node.old }
    {
        if !was_busy || node.fetching().is_some() {
            return;
        }
        self.note_switch(node);
    }

    // Keeps the digest of the active releases, and the time if they have changed.
    fn note_switch<K: Keep>(&mut self, node: &mut FeedNode<'_, K>)
        ensures { node.new ≡ node.old }
    {
        if let Ok(true) = node.keep_releases() {
            self.switched = Instant::now(self.rt).ok();
        }
    }
}

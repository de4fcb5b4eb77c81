//! Reads the folder of site files again for a node, in steps between the turns of its loop.
ghost use Rattle.std.specs.Prelude.{◌≡◌};
ghost use Rattle.node_service.specs.Runs.{IsLaterNode};

use crate::fetcher::FeedNode;
use feed_console::{Console, DONE, Faults, MISUSED};
use feed_keep::Keep;
use feed_options::{NodeOptions, SitePath};
use node_request::SitesRequest;
use node_server::{Server, StreamKind};
use node_site_files::FolderReading;
use node_sites::{NamedSite, NodeSites};
use node_state::NodeState;
use std::io::Write;
use std::time::Instant;

// The most steps between two turns, and the microseconds after which there are no more.
const STEPS: usize = 64;

const STEPS_MICROS: u64 = 2_000;

/// Reads the folder of site files when a client asks for it, one reading at a time.
#[derive(Drop)]
pub struct Reloader<'a> {
    rt: &'a HostRuntime,
    state: &'a NodeState,
    options: NodeOptions<'a>,
    /// The lines about the files, which the client receives.
    console: Console<'a, Vec<u8>, Vec<u8>>,
    running: Option<FolderReading<'a>>,
    /// The sites that the node had before, which are freed one in a turn.
    retired: Vec<NamedSite>,
}

impl<'a> Reloader<'a> {
    pub fn new(
        rt: &'a HostRuntime,
        options: NodeOptions<'a>,
        state: &'a NodeState,
    ) -> Reloader<'a> {
        Reloader {
            rt,
            state,
            options,
            console: Console {
                rt,
                out: Vec::new(rt.alloc()),
                faults: Faults::new(Vec::new(rt.alloc()), true),
            },
            running: None,
            retired: Vec::new(rt.alloc()),
        }
    }

    /// Advances the reading that a client asked for, for at most two milliseconds and the work of one step, and ends it
    /// once all files are read: the node responds with their sites from then on, or keeps its own if a file has a fault
    /// or if it was only to check them. The client receives each fault, and then how many sites there are.
    #[tactic(auto, using(node_machine::proofs::Later::later_same))]
    pub fn advance<K: Keep>(&mut self, server: &mut Server, node: &mut FeedNode<'_, K>)
        ensures { IsLaterNode node.old node.new }
    {
        if self.retired.pop().is_some() {
            server.skip_wait();
            return;
        }
        if !node.is_reloading() {
            return;
        }
        let end = self.read();
        self.send_lines(server);
        match end {
            Some(outcome) => self.end(server, node, outcome),
            None => server.skip_wait(),
        }
    }

    // Reads the next portion of the folder. Returns its sites once all files are read, or the exit status of a fault.
    fn read(&mut self) -> Option<Result<NodeSites, u8>> {
        let mut reading = match self.running.take() {
            Some(reading) => reading,
            None => match self.begin() {
                Ok(reading) => reading,
                Err(status) => return Some(Err(status)),
            },
        };
        let begun = Instant::now(self.rt).ok();
        for _ in 0..STEPS {
            if !reading.advance(&mut self.console) {
                return Some(reading.finish());
            }
            if is_over(self.rt, begun) {
                break;
            }
        }
        self.running = Some(reading);
        None
    }

    // Begins to read the folder, or reports that there is none.
    fn begin(&mut self) -> Result<FolderReading<'a>, u8> {
        match self.options.site {
            SitePath::Folder(path) => FolderReading::begin(path, self.options, &mut self.console),
            SitePath::File(_) | SitePath::None => Err(
                self.console.faults.report_with(
                    "Sites None",
                    "--sites",
                    "the node has no folder of site files",
                    MISUSED,
                ),
            ),
        }
    }

    // Sends the lines about the files to the client.
    fn send_lines(&mut self, server: &mut Server) {
        let lines = self.console.faults.out();
        server.send_to_streams(StreamKind::Sites, lines);
        lines.clear();
    }

    // Ends the reading, and completes the response to the client.
    fn end<K: Keep>(
        &mut self,
        server: &mut Server,
        node: &mut FeedNode<'_, K>,
        outcome: Result<NodeSites, u8>,
    )
        ensures { IsLaterNode node.old node.new }
    {
        let lines = self.last_lines(&outcome);
        self.give(node, outcome);
        server.send_to_streams(StreamKind::Sites, &lines);
        server.finish_streams(StreamKind::Sites);
    }

    // Returns the last lines to the client: how many sites there are, if no file has a fault, and the exit status.
    fn last_lines(&self, outcome: &Result<NodeSites, u8>) -> Vec<u8> {
        let mut lines = Vec::new(self.rt.alloc());
        let status = match outcome {
            Ok(sites) => {
                let count = sites.list().len();
                let _ = writeln!(&mut lines, "ok {count} sites");
                DONE
            }
            Err(status) => *status,
        };
        let _ = writeln!(&mut lines, "status {status}");
        lines
    }

    // Has the node respond with these sites, unless a file has a fault or it was only to check them.
    fn give<K: Keep>(&mut self, node: &mut FeedNode<'_, K>, outcome: Result<NodeSites, u8>)
        ensures { IsLaterNode node.old node.new }
    {
        match outcome {
            Ok(sites) if node.reload() == Some(SitesRequest::Reload) => self.begin_sites(
                node, sites,
            ),
            _ => {
                let _ = node.keep_sites();
            }
        }
    }

    // Has the node respond with these sites, whose names the log has from now on.
    #[tactic(auto, using(node_machine::proofs::Later::later_after))]
    fn begin_sites<K: Keep>(&mut self, node: &mut FeedNode<'_, K>, sites: NodeSites)
        ensures { IsLaterNode node.old node.new }
    {
        self.state.rename_sites(self.rt, sites.list());
        self.retired = node.begin_sites(sites).into_list();
        let _ = node.keep_releases();
    }
}

// Returns whether the time of the steps between two turns is over.
fn is_over(rt: &HostRuntime, begun: Option<Instant>) -> bool {
    let (Some(begun), Ok(now)) = (begun, Instant::now(rt)) else {
        return true;
    };
    now.saturating_duration_since(begun).as_micros() >= STEPS_MICROS as u128
}

//! The work of a node: its responses, and its loop with the fetch and the reading of sites that run between two turns.
#![tactic(auto)]

mod exchange;
mod fetch_report;
mod fetched;
mod fetcher;
mod laws;
mod node_loop;
mod reloader;
mod responder;
mod source_addrs;
mod starting;
mod starting_responder;
mod wanted;
mod watched_file;

pub use laws::nodes_agree;
pub use node_loop::{End, NodeSetup, run};
pub use source_addrs::SourceAddrs;
pub use starting::{StartFault, start};
pub use wanted::WantedPackage;
pub use watched_file::WatchedFile;

//! The commands of kbfeed.
use crate::files::{CheckOptions, DiffOptions, ServeOptions};
use crate::node::NodeOptions;
use std::time::Duration;

/// A command of the program.
#[derive(Drop)]
pub enum Command<'a> {
    /// Replay the script on standard input.
    Replay,
    /// Check the files at these paths; `-` is standard input.
    Check {
        files: Vec<&'a str>,
        options: CheckOptions<'a>,
    },
    /// Compare the list at a path with the old one at another.
    Diff {
        old: &'a str,
        options: DiffOptions<'a>,
    },
    /// Answer a query from the list at a path.
    Answer {
        file: &'a str,
        query: &'a str,
    },
    /// Print how a query is understood.
    Openurl {
        query: &'a str,
        is_json: bool,
    },
    /// Serve a folder.
    Serve(ServeOptions<'a>),
    /// Run a command on the database of a node, which is at this path.
    Node {
        db: &'a str,
        command: NodeCommand<'a>,
    },
}

/// A command on the database of a node.
#[derive(Clone, Copy)]
pub enum NodeCommand<'a> {
    /// Run the node.
    Run(NodeOptions<'a>),
    /// A command that needs no server.
    Database(DatabaseCommand<'a>),
}

/// A command that needs only the database of a node.
#[derive(Clone, Copy)]
pub enum DatabaseCommand<'a> {
    /// Fetch a release.
    Fetch(FetchOptions<'a>),
    /// Answer a query from the active release of a package.
    Ask {
        package: &'a str,
        query: &'a str,
    },
    /// Compare a new list with the active release of a package.
    Diff {
        package: &'a str,
        options: DiffOptions<'a>,
    },
    /// Print the holdings for Google Scholar.
    Export,
    /// List the releases.
    Status,
    /// Print why a release is broken.
    Why {
        name: &'a str,
    },
}

/// The options of `fetch`.
#[derive(Clone, Copy)]
pub struct FetchOptions<'a> {
    /// The host and port of the server.
    pub addr: &'a str,
    /// The name of the release.
    pub name: &'a str,
    /// How many bytes a request asks for, 1 to 1,048,576.
    pub piece: u64,
    /// How long a connection may pause.
    pub time: Duration,
}

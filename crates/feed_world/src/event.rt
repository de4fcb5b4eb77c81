//! The events of a world of published files and nodes.
use feed_names::ReleaseName;

/// The most nodes that a world may have. It has at least one.
pub const NODE_LIMIT: usize = 16;

/// The event during which a node stops: an offer with the size of the published file, or the `len` bytes of the
/// published file from the place `first` on.
#[derive(Drop)]
pub enum Sent {
    Offer {
        name: ReleaseName,
    },
    Deliver {
        name: ReleaseName,
        first: u64,
        len: u64,
    },
}

/// An event of a world of published files and nodes. Nodes are numbered from 1.
#[derive(Drop)]
pub enum WorldEvent {
    /// A file is published under a name. A name belongs to one file for ever.
    Publish {
        name: ReleaseName,
        bytes: Vec<u8>,
    },
    /// A node is offered a published release, with the size of its file.
    Offer {
        node: u64,
        name: ReleaseName,
    },
    /// A node receives the `len` bytes of the published file from the place `first` on, and the size of the file.
    Deliver {
        node: u64,
        name: ReleaseName,
        first: u64,
        len: u64,
    },
    /// A piece that a node requested does not arrive.
    Lose {
        node: u64,
        name: ReleaseName,
    },
    /// A node stops between two events, and is opened again on the records of its keeper. A node that is down is opened
    /// again too.
    Restart {
        node: u64,
    },
    /// A node stops in the middle of an event, before it commits, and is opened again.
    StopBefore {
        node: u64,
        what: Sent,
    },
    /// A node stops in the middle of an event, after its commit and before it answers, and is opened again.
    StopAfter {
        node: u64,
        what: Sent,
    },
    /// A node reports which release of a package is active.
    Report {
        node: u64,
        package: Vec<u8>,
    },
    /// A node answers a query about a package.
    Ask {
        node: u64,
        package: Vec<u8>,
        query: Vec<u8>,
    },
}

//! Laws of nodes, each stated as the contract of a function with an empty body.
ghost use Rattle.node_machine.specs.Promise.{FilesArePublished, NodeIsRight};

use crate::machine::NodeMachine;
use crate::occasion::FeedRespond;
use feed_keep::Keep;
use node_table::Stream;

/// On each connection of a node the bytes sent are the beginning of the responses, in order, to the requests received.
/// Each response is one of the responder to the feed as it was when the response was made, with the sites that the node
/// had then, and of a busy node exactly if a fetch was under way or requested. The feed has nothing but what the
/// responses of the knowledge base gave it. It changes only for requests that have the token, by one fetch at a time;
/// and it never reports an older release, over any number of stops. The sites change only as the node is opened, or
/// after a request that has the token and asks for that, whole and one reading at a time.
pub fn node_is_right<T: Stream, K: Keep, S: FeedRespond + Drop>(_node: &NodeMachine<'_, T, K, S>)
    ensures { NodeIsRight S.wanted S.responses S.sites _node.now }
{}

/// If the knowledge base of a node serves slices of published files, each complete file of the node is the published
/// one.
pub fn published_files_are_kept<V>()
    ensures { FilesArePublished V }
{}

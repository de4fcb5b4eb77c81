//! Laws of nodes, each stated as the contract of a function whose body calls the laws below it.
ghost use Rattle.node_service.specs.Agreement.{HitsArePublished, NodesAgree};

use node_machine::published_files_are_kept;
use node_resolver::same_releases_same_node_bytes;
use node_sites::NodeSites;

/// Two nodes whose knowledge bases serve slices of the same published files give each request of a reader the same
/// bytes, whenever they report the same releases and have the same site for its host. Each hit is one of the whole
/// published file of its release.
pub fn nodes_agree()
    ensures agree { NodesAgree }
    ensures published { HitsArePublished }
{
    published_files_are_kept::<NodeSites>();
    same_releases_same_node_bytes();
}

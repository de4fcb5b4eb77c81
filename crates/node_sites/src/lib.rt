//! The sites of a node by the hosts whose requests they respond to, and how they are read from a folder that has the
//! site file of each host.
#![tactic(auto)]

mod logged_site;
mod node_sites;
mod sites_read;
mod sites_reading;

pub use logged_site::site_place;
pub use node_sites::{NamedSite, NodeSites};
pub use sites_read::SitesFolder;
pub use sites_reading::{FOLDER_LIMIT, FileFault, Need, SitesReading};

//! The folder of site files of a node, which a client may have it read again.
ghost use Rattle.std.specs.Prelude.{◌≡◌, Option, None, Some, is_some};
ghost use Rattle.node_machine.specs.Nodes.{HasBegunSites, HasKeptSites, IsLater};

use crate::machine::NodeMachine;
use crate::occasion::FeedRespond;
use feed_keep::Keep;
use node_request::SitesRequest;
use node_table::Stream;

impl<'a, T: Stream, K: Keep, S: FeedRespond + Drop> NodeMachine<'a, T, K, S> {
    /// Returns what a client asked of the folder, from the request until `begin_sites` or `keep_sites`.
    pub fn reload(&self) -> Option<SitesRequest>
        ensures { result ≡ self.now.reload }
    {
        self.reload
    }

    /// Returns whether the folder is being read.
    pub fn is_reloading(&self) -> bool
        ensures { result ≡ is_some self.now.reload }
    {
        self.reload.is_some()
    }

    /// Ends the reading of the folder: responds with its sites from now on, if a client asked for that. Returns the
    /// sites that the node had. If no client asked for that, the node keeps them, and the sites given are returned.
    pub fn begin_sites(&mut self, sites: S::Sites) -> S::Sites
        ensures begun { HasBegunSites S.wanted S.responses S.sites sites self.old self.new }
        ensures had { self.old.reload ≡ Some SitesRequest.Reload → result ≡ S.sites self.old.responder }
        ensures kept { ¬ (self.old.reload ≡ Some SitesRequest.Reload) → (self.new ≡ self.old) × (result ≡ sites) }
        ensures later { IsLater S.wanted S.responses S.sites self.old self.new }
    {
        match self.reload {
            Some(SitesRequest::Reload) => {
                self.reload = None;
                self.responder.replace_sites(sites)
            }
            _ => sites,
        }
    }

    /// Ends the reading of the folder, or the check of its files, and keeps the sites. Returns what a client had asked.
    pub fn keep_sites(&mut self) -> Option<SitesRequest>
        ensures ended { HasKeptSites S.wanted S.responses S.sites self.old self.new }
        ensures asked { result ≡ self.old.reload }
        ensures kept { self.old.reload ≡ None → self.new ≡ self.old }
        ensures later { IsLater S.wanted S.responses S.sites self.old self.new }
    {
        self.reload.take()
    }
}

//! The sites of a node by the hosts whose requests they respond to, each with the name of its file.
ghost use Rattle.std.specs.Prelude.{◌≡◌, ◌-◌, ◌∷◌, ◌++◌, List, ℕ, [], IfErr, IfOk, None, OnErr, OnOk, Option, Some};
ghost use Rattle.std.specs.Prelude.{length, option_copied, slice_get, take};
ghost use Rattle.node_site.specs.Sites.{other_site, own_site};

use feed_answer::Today;
use node_response::{DigestedPieces, Site};
use node_site::{Sites, SitesFault};
use std::alloc::{AllocError, Global};
use std::marker::Model;

/// The site of a library, with the name of its file.
#[derive(Drop)]
pub struct NamedSite {
    pub site: Site,
    /// The name of its file, such as `library.example.toml`, or none without a folder.
    pub name: Vec<u8>,
}

/// Sites, with the text about the releases for which the tags of all of them are prepared.
#[derive(Drop)]
struct SiteList {
    sites: Vec<NamedSite>,
    releases: DigestedPieces,
}

impl Model for SiteList {
    ghost use Rattle.std.specs.Prelude.{List};
    ghost use Rattle.node_sites.specs.declared.node_sites.NamedSite.{NamedSite};

    ghost Value = { List NamedSite };

    ghost view = { λ s. s.sites.items };
}

/// The sites of a node by the hosts whose requests they respond to.
#[derive(Drop)]
pub struct NodeSites {
    /// The place of each host's site in the list.
    places: Sites<usize>,
    list: SiteList,
}

// Prepares the tags of sites for a text about the releases and for a day. Changes no tag.
fn prepare_all(
    alloc: Global,
    sites: &mut [NamedSite],
    releases: &DigestedPieces,
    today: &Today,
) -> Result<(), AllocError>
    ensures { sites.new ≡ sites.old }
{
    for named in sites.iter_mut() {
        named.site.keep_releases(releases);
        named.site.keep_day(alloc, today)?;
    }
    Ok(())
}

impl SiteList {
    fn new(alloc: Global) -> SiteList
        ensures { result ≡ [] }
    {
        SiteList {
            sites: Vec::new(alloc),
            releases: DigestedPieces::new(alloc),
        }
    }

    fn len(&self) -> usize
        ensures { result ≡ length self.now }
    {
        self.sites.len()
    }

    // Adds a site at the end.
    fn push(&mut self, site: NamedSite) -> Result<(), AllocError>
        ensures added { OnOk result (self.new ≡ self.old ++ site ∷ []) }
        ensures same { OnErr result (self.new ≡ self.old) }
    {
        self.sites.push(site)?;
        Ok(())
    }

    // Removes the last site.
    fn pop(&mut self)
        ensures { self.new ≡ take (length self.old - 1) self.old }
    {
        self.sites.pop();
    }

    fn into_sites(self) -> Vec<NamedSite>
        ensures { result.items ≡ self }
    {
        self.sites
    }

    fn get(&self, place: usize) -> Option<&NamedSite>
        ensures { option_copied result ≡ slice_get self.now place }
    {
        self.sites.get(place)
    }

    // Prepares the tags of all sites for a text about the releases and for a day. Changes no tag. Returns whether the
    // text is another one than before.
    fn prepare(&mut self, alloc: Global, today: &Today, text: &[u8]) -> Result<bool, AllocError>
        ensures { self.new ≡ self.old }
    {
        let has_changed = !self.releases.is_of(text);
        if has_changed {
            self.releases = self.releases.renewed(alloc, text)?;
        }
        prepare_all(alloc, &mut self.sites, &self.releases, today)?;
        Ok(has_changed)
    }
}

impl NodeSites {
    ghost use Rattle.node_sites.specs.NodeSites.{AddsNamed, AreSameNamed, IsAddFault, SetsOtherNamed};
    ghost use Rattle.node_sites.specs.NodeSites.{named_for, place_for, site_for};

    /// Returns no sites.
    pub fn new(alloc: Global) -> NodeSites
        ensures places { (host : List ℕ) → own_site host result.places ≡ None }
        ensures others { other_site result.places ≡ None }
        ensures list { result.list ≡ [] }
    {
        NodeSites {
            places: Sites::new(alloc),
            list: SiteList::new(alloc),
        }
    }

    /// Returns one site for all hosts.
    ///
    /// # Errors
    ///
    /// Running out of memory.
    pub fn of_all(alloc: Global, site: NamedSite) -> Result<NodeSites, AllocError>
        ensures { IfOk result (λ sites. (host : Option (List ℕ)) → named_for host sites ≡ Some site) }
    {
        let mut sites = NodeSites::new(alloc);
        sites.set_others(site)?;
        Ok(sites)
    }

    /// Adds the site of a host.
    ///
    /// # Errors
    ///
    /// The text is not the name of a host, the host has a site, there are 1,024 sites, or an allocation fails. The
    /// sites are as before then.
    pub fn add(&mut self, alloc: Global, host: &[u8], site: NamedSite) -> Result<(), SitesFault>
        ensures added { OnOk result (AddsNamed self.old host.now site self.new) }
        ensures refused { IfErr result (IsAddFault self.old host.now) }
        ensures same { OnErr result (AreSameNamed self.old self.new) }
    {
        let place = self.list.len();
        if self.list.push(site).is_err() {
            return Err(SitesFault::Memory);
        }
        match self.places.add(alloc, host, place) {
            Ok(()) => Ok(()),
            Err(fault) => {
                self.list.pop();
                Err(fault)
            }
        }
    }

    /// Sets the site of all hosts that have none of their own.
    ///
    /// # Errors
    ///
    /// Running out of memory. The sites are as before then.
    pub fn set_others(&mut self, site: NamedSite) -> Result<(), AllocError>
        ensures set { OnOk result (SetsOtherNamed self.old site self.new) }
        ensures same { OnErr result (self.new ≡ self.old) }
    {
        let place = self.list.len();
        self.list.push(site)?;
        self.places.set_others(place);
        Ok(())
    }

    /// Returns the sites, each with the name of its file.
    pub fn list(&self) -> &[NamedSite]
        ensures { result.now ≡ self.now.list }
    {
        &self.list.sites
    }

    /// Returns the sites alone, such as to free them.
    pub fn into_list(self) -> Vec<NamedSite>
        ensures { result.items ≡ self.list }
    {
        self.list.into_sites()
    }

    /// Returns the place in the list of the site of the requests for a host.
    pub fn place(&self, host: Option<&[u8]>) -> Option<usize>
        ensures { result ≡ place_for (option_copied host.entry) self.now }
    {
        match self.places.site_of(host) {
            Some(place) => Some(*place),
            None => None,
        }
    }

    /// Returns the site of the requests for a host, with the name of its file.
    pub fn named(&self, host: Option<&[u8]>) -> Option<&NamedSite>
        ensures { option_copied result ≡ named_for (option_copied host.entry) self.now }
    {
        match self.place(host) {
            Some(place) => self.list.get(place),
            None => None,
        }
    }

    /// Returns the site of the requests for a host.
    pub fn site(&self, host: Option<&[u8]>) -> Option<&Site>
        ensures { option_copied result ≡ site_for (option_copied host.entry) self.now }
    {
        match self.named(host) {
            Some(named) => Some(&named.site),
            None => None,
        }
    }

    /// Returns the text about the releases for which the tags are prepared.
    pub fn releases(&self) -> &DigestedPieces {
        &self.list.releases
    }

    /// Prepares the tags of all sites for a text about the releases and for a day. Changes no tag. Returns whether the
    /// text is another one than before.
    ///
    /// # Errors
    ///
    /// Running out of memory, after which some responses compute their digests themselves.
    pub fn prepare(&mut self, alloc: Global, today: &Today, text: &[u8]) -> Result<bool, AllocError>
        ensures { self.new ≡ self.old }
    {
        self.list.prepare(alloc, today, text)
    }
}

//! The links of a site to the rows of an answer. What rows have in common is made once.
ghost use Rattle.std.specs.Prelude.{◌≡◌, IfOk};
ghost use Rattle.std.specs.Bool.{OnTrue};
ghost use Rattle.node_site.specs.Proxies.{prefix_at, prefix_for};
ghost use Rattle.node_site.specs.Site.{SiteValue};

use node_site::{Prefix, SiteFile, again, host_of, prefix_at};
use std::alloc::{AllocError, Global};
use std::marker::Model;

/// The prefix of the links to a host, if they go through a proxy.
#[derive(Drop)]
pub(crate) struct HostPrefix<'s> {
    pub(crate) host: Vec<u8>,
    pub(crate) prefix: Option<Prefix<'s>>,
}

/// A site, and the prefix of the host to which its last link leads.
#[derive(Drop)]
pub(crate) struct SiteLinks<'s> {
    site: &'s SiteFile,
    host: Option<HostPrefix<'s>>,
}

impl<'s> Model for SiteLinks<'s> {
    ghost use Rattle.std.specs.Prelude.{IfSome};
    ghost use Rattle.node_links.specs.Articles.{IsPrefixOf};
    ghost use Rattle.node_site.specs.Site.{SiteValue};

    ghost Value = { SiteValue };

    ghost view = { λ l. l.site.now };

    ghost invariant = { λ l. IfSome l.host (IsPrefixOf l.site.now) };
}

impl<'s> HostPrefix<'s> {
    fn is_of(&self, host: &[u8]) -> bool
        ensures { OnTrue result (self.now.host.items ≡ host.now) }
    {
        self.host.as_slice() == host
    }
}

impl<'s> SiteLinks<'s> {
    /// Returns the links of a site.
    pub(crate) fn new(site: &'s SiteFile) -> SiteLinks<'s>
        ensures { result ≡ site.now }
    {
        SiteLinks { site, host: None }
    }

    /// Returns the site.
    pub(crate) fn site(&self) -> &'s SiteFile
        ensures { result.now ≡ self.now }
    {
        self.site
    }

    // Returns the prefix of the links to a host. It is looked up, unless the host is the last one.
    fn prefix_at(&mut self, alloc: Global, host: &[u8]) -> Result<Option<Prefix<'s>>, AllocError>
        ensures same { self.new ≡ self.old }
        ensures prefix { IfOk result (λ prefix. prefix ≡ prefix_at self.old host.now) }
    {
        if let Some(last) = &self.host {
            if last.is_of(host) {
                return Ok(again(&last.prefix));
            }
        }
        let prefix = prefix_at(self.site, host);
        let found = again(&prefix);
        let host = Vec::from_slice(alloc, host)?;
        self.host = Some(HostPrefix { host, prefix });
        Ok(found)
    }

    /// Returns the prefix of the link to a target, if the link goes through a proxy.
    ///
    /// # Errors
    ///
    /// Running out of memory.
    pub(crate) fn prefix_for(
        &mut self,
        alloc: Global,
        target: &[u8],
        is_direct: bool,
    ) -> Result<Option<Prefix<'s>>, AllocError>
        ensures same { self.new ≡ self.old }
        ensures prefix { IfOk result (λ prefix. prefix ≡ prefix_for self.old target.now is_direct) }
    {
        if is_direct {
            return Ok(None);
        }
        match host_of(target) {
            Some(host) => self.prefix_at(alloc, host),
            None => Ok(None),
        }
    }
}

//! The sites of a node by their hosts, and the one of all other hosts.
ghost use Rattle.std.specs.Prelude.{◌≡◌, ◌<◌, List, ℕ, false, is_some, length};
ghost use Rattle.std.specs.Ordering.{nat_cmp};
ghost use Rattle.std.specs.Cmp.Lexicographic.{slice_cmp};
ghost use Rattle.std.specs.BTreeMap.{get_by};

use crate::hosts::lower_case;
use crate::urls::{HOST_LIMIT, is_host};
use std::alloc::Global;
use std::collections::BTreeMap;

/// The most sites of hosts.
pub const SITES_LIMIT: usize = 1_024;

/// Why the site of a host is not added.
#[derive(Clone, Copy, Debug, PartialEq, Eq)]
pub enum SitesFault {
    /// The text is not the name of a host.
    NotHost,
    /// The host has a site, maybe in another case of letters.
    Twice,
    /// There are 1,024 sites.
    TooMany,
    /// An allocation failed.
    Memory,
}

impl SitesFault {
    /// Returns what is wrong, in words.
    pub fn words(self) -> &'static str {
        match self {
            SitesFault::NotHost => "it is not the name of a host, as library.example",
            SitesFault::Twice => "another file is of the same host, in another case of letters",
            SitesFault::TooMany => "there are more than 1,024 sites",
            SitesFault::Memory => "out of memory",
        }
    }
}

/// Sites by the hosts whose requests they respond to, and the one of all other hosts, if there is one.
#[derive(Drop)]
pub struct Sites<S> {
    /// Each site by its host in lower case.
    by_host: BTreeMap<Vec<u8>, S>,
    others: Option<S>,
    ghost short: { (host : List ℕ) → 253 < length host
        → is_some (get_by (λ k. slice_cmp nat_cmp host k.items) by_host) ≡ false },
}

impl<S: Drop> Sites<S> {
    ghost use Rattle.std.specs.Prelude.{IfErr, None, OnErr, OnOk, Some, option_copied};
    ghost use Rattle.node_site.specs.Sites.{AddsSite, AreSame, IsSitesFault, SetsOthers};
    ghost use Rattle.node_site.specs.Sites.{count_of_sites, other_site, own_site, site_of};

    /// Returns no sites.
    pub fn new(alloc: Global) -> Sites<S>
        ensures own { (host : List ℕ) → own_site host result ≡ None }
        ensures others { other_site result ≡ None }
        ensures count { count_of_sites result ≡ 0 }
    {
        Sites {
            by_host: BTreeMap::new(alloc),
            others: None,
        }
    }

    /// Adds the site of a host.
    ///
    /// # Errors
    ///
    /// The text is not the name of a host, the host has a site, there are 1,024 sites, or an allocation fails. The
    /// sites are as before then.
    pub fn add(&mut self, alloc: Global, host: &[u8], site: S) -> Result<(), SitesFault>
        ensures added { OnOk result (AddsSite self.old host.now site self.new) }
        ensures refused { IfErr result (IsSitesFault self.old host.now) }
        ensures same { OnErr result (AreSame self.old self.new) }
    {
        if !is_host(host) {
            return Err(SitesFault::NotHost);
        }
        let lower = match lower_case(alloc, host) {
            Ok(lower) => lower,
            Err(_) => return Err(SitesFault::Memory),
        };
        if self.by_host.contains_key(lower.as_slice()) {
            return Err(SitesFault::Twice);
        }
        if self.by_host.len() >= SITES_LIMIT {
            return Err(SitesFault::TooMany);
        }
        match self.by_host.insert(lower, site) {
            Ok(_) => Ok(()),
            Err(_) => Err(SitesFault::Memory),
        }
    }

    /// Sets the site of all hosts that have none of their own.
    pub fn set_others(&mut self, site: S)
        ensures { SetsOthers self.old site self.new }
    {
        self.others = Some(site);
    }

    /// Returns how many hosts have a site of their own.
    pub fn len(&self) -> usize
        ensures { result ≡ count_of_sites self.now }
    {
        self.by_host.len()
    }

    // Returns the site that a host has of its own. Hosts are compared in any case of letters.
    fn own(&self, host: &[u8]) -> Option<&S>
        ensures { option_copied result ≡ own_site host.now self.now }
    {
        if host.len() > HOST_LIMIT {
            return None;
        }
        let mut buffer = [0; HOST_LIMIT];
        let lower = &mut buffer[..host.len()];
        lower.copy_from_slice(host);
        lower.make_ascii_lowercase();
        self.by_host.get(&*lower)
    }

    /// Returns the site of the requests for a host: its own, or else that of all others. A request for a host without
    /// a site is misdirected (RFC 9110, section 15.5.20).
    pub fn site_of(&self, host: Option<&[u8]>) -> Option<&S>
        ensures { option_copied result ≡ site_of (option_copied host.entry) self.now }
    {
        if let Some(host) = host {
            if let Some(site) = self.own(host) {
                return Some(site);
            }
        }
        self.others.as_ref()
    }
}

//! The best links among the hits of a query.
ghost use Rattle.std.specs.Prelude.{◌≡◌, None, IfOk, OnOk, option_map};
ghost use Rattle.std.specs.Cow.{cow_slice_items};
ghost use Rattle.node_hits.specs.Tallying.{is_above, no_links, with_link, with_links};

use crate::hits::ReleaseHit;
use std::alloc::{AllocError, Global};
use std::borrow::CowSlice;
use std::marker::Model;

/// The link of the hit with the highest rank so far; of equals the first. It is written when it is asked for.
#[derive(Drop)]
pub(crate) struct BestLink<'a> {
    hit: Option<ReleaseHit<'a>>,
}

impl<'a> Model for BestLink<'a> {
    ghost use Rattle.std.specs.Prelude.{Option, option_map};
    ghost use Rattle.node_hits.specs.Hits.{LinkValue, own_link};

    ghost Value = { Option LinkValue };

    ghost view = { λ l. option_map own_link l.hit };
}

impl<'a> BestLink<'a> {
    ghost use Rattle.node_hits.specs.Hits.{link_url};

    pub(crate) fn new() -> BestLink<'a>
        ensures { result ≡ None }
    {
        BestLink { hit: None }
    }

    // Returns whether a rank is above that of the best link, if there is one.
    fn is_below(&self, rank: u32) -> bool
        ensures { result ≡ is_above rank self.now }
    {
        match &self.hit {
            Some(hit) => hit.rank() < rank,
            None => true,
        }
    }

    /// Adds the link of a hit, if it has one and no earlier hit has that rank or a higher one.
    pub(crate) fn add(&mut self, alloc: Global, found: &ReleaseHit<'a>) -> Result<(), AllocError>
        ensures { OnOk result (self.new ≡ with_link self.old found.now) }
    {
        if self.is_below(found.rank()) && found.has_link(alloc)? {
            self.hit = Some(found.again());
        }
        Ok(())
    }

    /// Returns the best link.
    pub(crate) fn best(&self, alloc: Global) -> Result<Option<CowSlice<'a, u8, Global>>, AllocError>
        ensures { IfOk result (λ link. option_map cow_slice_items link ≡ option_map link_url self.now) }
    {
        match &self.hit {
            Some(hit) => Ok(Some(hit.link(alloc)?)),
            None => Ok(None),
        }
    }
}

/// The best link of all hits, and the best link of open hits.
#[derive(Drop)]
pub(crate) struct Links<'a> {
    all: BestLink<'a>,
    open_ones: BestLink<'a>,
    has_open: bool,
}

impl<'a> Model for Links<'a> {
    ghost use Rattle.node_hits.specs.Tallying.{LinksValue};

    ghost Value = { LinksValue };

    ghost view = { λ l. record { all = l.all; open_ones = l.open_ones; has_open = l.has_open } };
}

impl<'a> Links<'a> {
    ghost use Rattle.node_hits.specs.Hits.{link_url};

    pub(crate) fn new() -> Links<'a>
        ensures { result ≡ no_links }
    {
        Links {
            all: BestLink::new(),
            open_ones: BestLink::new(),
            has_open: false,
        }
    }

    /// Adds the link of a hit.
    pub(crate) fn add(&mut self, alloc: Global, found: &ReleaseHit<'a>) -> Result<(), AllocError>
        ensures { OnOk result (self.new ≡ with_links self.old found.now) }
    {
        self.all.add(alloc, found)?;
        if found.is_open() {
            self.has_open = true;
            self.open_ones.add(alloc, found)?;
        }
        Ok(())
    }

    /// Returns the best link of all hits.
    pub(crate) fn best(&self, alloc: Global) -> Result<Option<CowSlice<'a, u8, Global>>, AllocError>
        ensures { IfOk result (λ link. option_map cow_slice_items link ≡ option_map link_url self.now.all) }
    {
        self.all.best(alloc)
    }

    /// Returns the best link of the hits that are open to readers.
    pub(crate) fn best_open(
        &self,
        alloc: Global,
    ) -> Result<Option<CowSlice<'a, u8, Global>>, AllocError>
        ensures { IfOk result (λ link. option_map cow_slice_items link ≡ option_map link_url self.now.open_ones) }
    {
        self.open_ones.best(alloc)
    }

    /// Returns whether a hit is open to readers.
    pub(crate) fn has_open(&self) -> bool
        ensures { result ≡ self.now.has_open }
    {
        self.has_open
    }
}

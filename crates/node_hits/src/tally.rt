//! The tally of a query's hits: how many there are, the first ones, those of the highest ranks, and the best link.
//! It is made release by release.
ghost use Rattle.std.specs.Prelude.{◌≡◌, ◌≤◌, ◌&&◌, ◌∷◌, List, Option, IfOk, OnOk, map, option_map, true};
ghost use Rattle.std.specs.Cow.{cow_slice_items};
ghost use Rattle.std.specs.List.{AllPass};
ghost use Rattle.feed_answer.specs.Places.{hit_at};
ghost use Rattle.node_site.specs.Packages.{package_place};
ghost use Rattle.node_hits.specs.Hits.{ReleaseHitValue, links_of};
ghost use Rattle.node_hits.specs.Looks.{are_fitting, fitting, hit_found, looks_at, release_found};
ghost use Rattle.node_hits.specs.Searches.{compared, is_asked_at};
ghost use Rattle.node_hits.specs.Tallies.{left_out, outcome_of, shows_all, sole_link};
ghost use Rattle.node_hits.specs.Tallying.{no_hits, tally_from, with_end, with_hit, with_hits, with_release};

use crate::hits::{LibraryRelease, ReleaseHit, is_found};
use crate::links::Links;
use crate::ranked_hit::RankedHit;
use crate::row_places::{front, open_places};
use crate::search::Search;
use crate::shares::Shares;
use crate::shown::{Shown, bytes_left};
use crate::text_room::{TextRoom, text_looks};
use crate::top::Top;
use feed_names::ReleaseName;
use node_links::CitedLinks;
use node_site::{SearchOutcome, package_place};
use std::alloc::{AllocError, Global};
use std::borrow::CowSlice;
use std::marker::Model;

/// The tally of the hits of a query so far.
#[derive(Drop)]
pub struct Tally<'a> {
    is_whole: bool,
    // The releases that may have more hits.
    partial: Vec<&'a ReleaseName>,
    count: usize,
    shown: Shown<'a>,
    top: Top<'a>,
    links: Links<'a>,
}

impl<'a> Model for Tally<'a> {
    ghost use Rattle.std.specs.Prelude.{map};
    ghost use Rattle.node_hits.specs.Tallying.{RunningValue};

    ghost Value = { RunningValue };

    ghost view = { λ t. record {
      is_whole = t.is_whole;
      partial = map (λ name. name.now) t.partial.items;
      count = t.count;
      shown = t.shown;
      top = t.top;
      links = t.links;
    } };
}

impl<'a> Tally<'a> {
    /// Returns the tally of no hits.
    pub fn new(alloc: Global) -> Tally<'a>
        ensures { result ≡ no_hits }
    {
        Tally {
            is_whole: true,
            partial: Vec::new(alloc),
            count: 0,
            shown: Shown::new(alloc),
            top: Top::new(alloc),
            links: Links::new(),
        }
    }

    /// Returns the number of hits that are counted.
    pub fn count(&self) -> usize
        ensures { result ≡ (tally_from self.now).count }
    {
        self.count
    }

    /// Returns whether these are all hits.
    pub fn is_whole(&self) -> bool
        ensures { result ≡ (tally_from self.now).is_whole }
    {
        self.is_whole
    }

    /// Returns the releases that may have more hits: not all their rows were looked at, or a hit was skipped for its
    /// long texts.
    pub fn partial(&self) -> &[&'a ReleaseName]
        ensures { map (λ name. name.now) result.now ≡ (tally_from self.now).partial }
    {
        &self.partial
    }

    /// Returns the first hits, which a response in text shows.
    pub fn shown(&self) -> &[ReleaseHit<'a>]
        ensures { result.now ≡ (tally_from self.now).shown }
    {
        self.shown.hits()
    }

    /// Returns the hits of the highest ranks, which a response in JSON and a page show.
    pub fn top(&self) -> &[RankedHit<'a>]
        ensures { result.now ≡ (tally_from self.now).top }
    {
        self.top.hits()
    }

    /// Returns how many of the counted hits a response in JSON and a page do not show.
    pub fn left_out(&self) -> usize
        ensures { result ≡ left_out (tally_from self.now) }
    {
        self.count().saturating_sub(self.top().len())
    }

    /// Returns whether a response in JSON and a page show all hits.
    pub fn shows_all(&self) -> bool
        ensures { result ≡ shows_all (tally_from self.now) }
    {
        self.is_whole && self.left_out() == 0
    }

    /// Returns the link of the hit with the highest rank that has one; of equals the first.
    ///
    /// # Errors
    ///
    /// Running out of memory.
    pub fn best_link(&self, alloc: Global) -> Result<Option<CowSlice<'a, u8, Global>>, AllocError>
        ensures { IfOk result (λ link. option_map cow_slice_items link ≡ (tally_from self.now).best) }
    {
        self.links.best(alloc)
    }

    /// Returns the same of the hits that are open to readers.
    ///
    /// # Errors
    ///
    /// Running out of memory.
    pub fn best_open_link(
        &self,
        alloc: Global,
    ) -> Result<Option<CowSlice<'a, u8, Global>>, AllocError>
        ensures { IfOk result (λ link. option_map cow_slice_items link ≡ (tally_from self.now).best_open) }
    {
        self.links.best_open(alloc)
    }

    /// Returns the outcome of the search, by which the links of a library are shown.
    pub fn outcome(&self) -> SearchOutcome
        ensures { result ≡ outcome_of (tally_from self.now) }
    {
        if self.links.has_open() {
            SearchOutcome::Hits
        } else if !self.is_whole {
            SearchOutcome::Unknown
        } else if self.count == 0 {
            SearchOutcome::NoHits
        } else {
            SearchOutcome::Embargoed
        }
    }

    /// Returns the link of the sole hit, if no release may have more, there is only one, a reader may be sent there
    /// without a choice, and it has a link.
    ///
    /// # Errors
    ///
    /// Running out of memory.
    pub fn sole_link(&self, alloc: Global) -> Result<Option<CowSlice<'a, u8, Global>>, AllocError>
        ensures { IfOk result (λ link. option_map cow_slice_items link ≡ sole_link (tally_from self.now)) }
    {
        if !self.is_whole || self.count != 1 {
            return Ok(None);
        }
        match self.shown() {
            [found, ..] if found.is_certain() => self.best_link(alloc),
            _ => Ok(None),
        }
    }

    // Adds a hit.
    fn add_hit(&mut self, alloc: Global, found: ReleaseHit<'a>) -> Result<(), AllocError>
        ensures { OnOk result (self.new ≡ with_hit self.old found.entry) }
    {
        let Some(count) = self.count.checked_add(1) else {
            return Err(AllocError);
        };
        self.count = count;
        self.links.add(alloc, &found)?;
        let left = bytes_left(&found);
        self.shown.add(&found, left)?;
        self.top.add(alloc, found, left)
    }

    // Looks at the row at a place, and adds the hit that is found in it, unless its texts do not fit into the room.
    fn look_at(
        &mut self,
        alloc: Global,
        release: &LibraryRelease<'a>,
        site_place: usize,
        place: u32,
        search: &Search<'a>,
        links: &mut CitedLinks<'a>,
        room: &mut TextRoom,
    ) -> Result<(), AllocError>
        requires of { site_place ≡ package_place release.now.site.now release.now.name.now.package_name }
        requires site { links.old ≡ links_of release.now.site.now search.now }
        requires asked { is_asked_at search.now.query release.now.holdings.now.rows place ≡ true }
        ensures kept { links.new ≡ links.old }
        ensures hits { OnOk result ((more : List (Option ReleaseHitValue))
            → with_hits self.new (fitting room.new.left more)
            ≡ with_hits self.old (fitting room.old.left
            (hit_found release.now.site.now release.now.today.now search.now release.now.name.now
            (hit_at (compared search.now) release.now.holdings.now.rows place) ∷ more))) }
        ensures whole { OnOk result ((more : List (Option ReleaseHitValue))
            → (room.new.is_enough && are_fitting room.new.left more)
            ≡ (room.old.is_enough && are_fitting room.old.left
            (hit_found release.now.site.now release.now.today.now search.now release.now.name.now
            (hit_at (compared search.now) release.now.holdings.now.rows place) ∷ more))) }
    {
        let Some(hit) = search.hit_at(release.holdings.rows(), place) else {
            return Ok(());
        };
        if !is_found(release.site, search, release.name, &hit) {
            return Ok(());
        }
        if room.take(text_looks(hit.row)) {
            self.add_hit(
                alloc,
                ReleaseHit::new(alloc, release, site_place, search, links, &hit)?,
            )
        } else {
            Ok(())
        }
    }

    // Looks at the rows at some places. Returns whether the texts of all hits fit into a share.
    fn look_at_each(
        &mut self,
        alloc: Global,
        release: &LibraryRelease<'a>,
        site_place: usize,
        places: &[u32],
        search: &Search<'a>,
        links: &mut CitedLinks<'a>,
        texts: usize,
    ) -> Result<bool, AllocError>
        requires of { site_place ≡ package_place release.now.site.now release.now.name.now.package_name }
        requires site { links.old ≡ links_of release.now.site.now search.now }
        requires asked { AllPass (is_asked_at search.now.query release.now.holdings.now.rows) places.now }
        ensures kept { links.new ≡ links.old }
        ensures hits { OnOk result (self.new
            ≡ with_hits self.old (fitting texts (looks_at release.now.site.now release.now.today.now search.now
            release.now.name.now release.now.holdings.now.rows places.now))) }
        ensures whole { IfOk result (λ is_whole. is_whole
            ≡ are_fitting texts (looks_at release.now.site.now release.now.today.now search.now
            release.now.name.now release.now.holdings.now.rows places.now)) }
    {
        let mut room = TextRoom::new(texts);
        for place in places {
            self.look_at(alloc, release, site_place, *place, search, links, &mut room)?;
        }
        Ok(room.is_enough)
    }

    // Ends a release, by whether all its hits are counted.
    fn end_release(&mut self, name: &'a ReleaseName, is_whole: bool) -> Result<(), AllocError>
        ensures { OnOk result (self.new ≡ with_end self.old name.now is_whole) }
    {
        if is_whole {
            return Ok(());
        }
        self.is_whole = false;
        Ok(self.partial.push(name)?)
    }

    /// Adds what a search finds in a release, within its shares. It looks at the first rows that have one of the
    /// identifiers of the search, in file order, and counts the hits that the library has. A hit whose texts do not fit
    /// into what is left of the release's share is skipped by itself.
    pub fn add_release(
        &mut self,
        alloc: Global,
        release: &LibraryRelease<'a>,
        search: &Search<'a>,
        links: &mut CitedLinks<'a>,
        shares: Shares,
    ) -> Result<(), AllocError>
        requires rows { shares.rows ≤ 10000 }
        requires site { links.old ≡ links_of release.now.site.now search.now }
        ensures kept { links.new ≡ links.old }
        ensures added { OnOk result (self.new
            ≡ with_release self.old (release_found shares release.now.site.now release.now.today.now search.now
            release.now.name.now release.now.holdings.now.rows)) }
    {
        let site_place = package_place(release.site, release.name.package());
        let found = open_places(alloc, release, search.query(), shares.rows + 1)?;
        let places = found.as_slice();
        let is_all = places.len() <= shares.rows;
        let looked = front(places, shares.rows);
        let texts = shares.texts;
        let fits = self.look_at_each(alloc, release, site_place, looked, search, links, texts)?;
        self.end_release(release.name, is_all && fits)
    }
}

//! A hit of a query, with its release, its availability and its links.
ghost use Rattle.std.specs.Prelude.{◌≡◌, ◌-◌, [], IfOk, length, option_map};
ghost use Rattle.std.specs.Cow.{cow_slice_items};
ghost use Rattle.feed_answer.specs.HitValue.{hit_of};
ghost use Rattle.node_links.specs.Articles.{with_title_id};
ghost use Rattle.node_site.specs.Held.{library_has};
ghost use Rattle.node_site.specs.Hosts.{is_link};
ghost use Rattle.node_site.specs.Packages.{package_place};
ghost use Rattle.node_site.specs.Proxies.{room_of};
ghost use Rattle.feed_kbart.specs.Identifiers.{kind};
ghost use Rattle.node_hits.specs.Hits.{days_asked, holds_day, holds_days, is_certain, is_found, is_held};
ghost use Rattle.node_hits.specs.Hits.{article_of, article_text, is_for_hits, is_held_dated, is_open};
ghost use Rattle.node_hits.specs.Hits.{is_open_or_unknown, is_readable, leads_to_article, may_be_full_text};
ghost use Rattle.node_hits.specs.Hits.{link_text, links_of, name_text, page_text, rank_of, release_hit};
ghost use Rattle.node_hits.specs.Searches.{whole_titles};

use crate::coverage_grade::is_dated;
use crate::lookup::Lookup;
use crate::rank::{is_abstracts, is_free, is_full_text, is_word, rank_by};
use crate::search::{Scope, Search};
use feed_answer::{Availability, Grade, Hit, Query, Today, availability_of};
use feed_dates::DayRange;
use feed_kbart::{Holdings, Kind, Row};
use feed_names::ReleaseName;
use node_links::{CitedLinks, article_link};
use node_site::{
    Prefix, SiteFile, again, is_direct, is_link, left_beside, library_has, may_be_link, note_on,
    through,
};
use std::alloc::{AllocError, Global};
use std::borrow::CowSlice;
use std::marker::Model;

/// A release among those of a library, on a day.
#[derive(Clone, Copy)]
pub struct LibraryRelease<'a> {
    pub site: &'a SiteFile,
    pub today: &'a Today,
    pub name: &'a ReleaseName,
    pub holdings: &'a Holdings,
}

/// A hit, its release, the days that are asked for of it, how those lie in the days that are open to readers, its
/// links, the note for readers, the place of its package in the order of the site, whether the library has all the days
/// that are asked for, and whether it is a book that comes before its series. The links, the note, and whether the
/// library has all days, are computed when they are asked for: most hits of a long answer are only counted.
#[derive(Drop)]
pub struct ReleaseHit<'a> {
    site: &'a SiteFile,
    name: &'a ReleaseName,
    row: &'a Row,
    lookup: &'a Lookup<'a>,
    asked: Option<DayRange>,
    grade: Grade,
    availability: Availability,
    // The prefix of the link to its page.
    prefix: Option<Prefix<'a>>,
    // The bytes of the link to the article, if there is one.
    article: Option<usize>,
    place: usize,
    is_first: bool,
    // Computed once, since it is compared with those of many other hits.
    rank: u32,
}

impl<'a> Model for ReleaseHit<'a> {
    ghost use Rattle.std.specs.Prelude.{◌≡◌, [], length, option_map, unwrap_or};
    ghost use Rattle.node_site.specs.Notes.{note_on};
    ghost use Rattle.node_hits.specs.Hits.{ReleaseHitValue, article_if, holds_days, rank_by};

    ghost Value = { ReleaseHitValue };

    ghost view = { λ f. record {
      name = f.name.now;
      hit = record { row = f.row.now; grade = f.grade };
      asked = f.asked;
      availability = f.availability;
      prefix = f.prefix;
      article = article_if f.article f.site.now f.lookup.now.cited f.name.now f.row.now;
      note = unwrap_or (note_on f.site.now f.name.now.package_name f.row.now.title_id) [];
      place = f.place;
      is_held_whole = holds_days f.site.now f.name.now f.row.now f.asked;
      is_first = f.is_first;
    } };

    ghost invariant = { λ f. (f.rank ≡ rank_by f.is_first f.availability f.grade f.row.now f.place)
        × (f.article ≡ option_map length (article_if f.article f.site.now f.lookup.now.cited f.name.now f.row.now)) };
}

impl<'a> ReleaseHit<'a> {
    /// Returns a hit of a release whose package has this place in the order of the site.
    pub(crate) fn new(
        alloc: Global,
        release: &LibraryRelease<'a>,
        site_place: usize,
        search: &Search<'a>,
        links: &mut CitedLinks<'a>,
        hit: &Hit<'a>,
    ) -> Result<ReleaseHit<'a>, AllocError>
        requires place { site_place ≡ package_place release.now.site.now release.now.name.now.package_name }
        requires of { links.old ≡ links_of release.now.site.now search.now }
        ensures same { links.new ≡ links.old }
        ensures hit { IfOk result (λ found. found
            ≡ release_hit release.now.site.now release.now.today.now search.now release.now.name.now
            (hit_of hit.now)) }
    {
        let (site, name, row) = (release.site, release.name, hit.row);
        let cells = row.cells();
        let (first, last) = (cells.first_day(), cells.last_day());
        let days = search.days();
        let availability = availability_of(release.today, cells.embargo_info, first, last, days);
        let article = article_len(alloc, search, links, availability, name, row)?;
        let is_direct = is_direct(site, name.package(), is_free(row));
        let prefix = links.prefix_for(alloc, cells.title_url, is_direct)?;
        let kind = cells.kind();
        let is_first = search.is_first(kind);
        Ok(ReleaseHit {
            site,
            name,
            row,
            lookup: search.lookup(),
            asked: days_asked(kind, days),
            grade: hit.grade,
            availability,
            prefix,
            article,
            place: site_place,
            is_first,
            rank: rank_by(is_first, availability, hit.grade, row, site_place),
        })
    }

    /// Returns the same hit again.
    pub(crate) fn again(&self) -> ReleaseHit<'a>
        ensures { result ≡ self.now }
    {
        ReleaseHit {
            site: self.site,
            name: self.name,
            row: self.row,
            lookup: self.lookup,
            asked: self.asked,
            grade: self.grade,
            availability: self.availability,
            prefix: again(&self.prefix),
            article: self.article,
            place: self.place,
            is_first: self.is_first,
            rank: self.rank,
        }
    }

    /// Returns how many bytes the link to the article has, if there is one.
    pub(crate) fn article_len(&self) -> usize
        ensures { result ≡ length (article_text self.now) }
    {
        self.article.unwrap_or(0)
    }

    // Returns the link to the article, if there is one.
    fn article(&self, alloc: Global) -> Result<Option<Vec<u8>>, AllocError>
        ensures { IfOk result (λ link. option_map (λ text. text.items) link ≡ self.now.article) }
    {
        match self.article {
            Some(_) => {
                let cited = self.lookup.cited(self.row.title_id());
                let (id, url) = (self.name.package(), self.row.url());
                article_link(alloc, self.site, id, url, is_free(self.row), &cited)
            }
            None => Ok(None),
        }
    }

    /// Returns the link to the article, or nothing.
    ///
    /// # Errors
    ///
    /// Running out of memory.
    pub fn article_text(&self, alloc: Global) -> Result<Vec<u8>, AllocError>
        ensures { IfOk result (λ text. text.items ≡ article_text self.now) }
    {
        match self.article(alloc)? {
            Some(link) => Ok(link),
            None => Ok(Vec::new(alloc)),
        }
    }

    /// Returns the link to the page of the hit: its URL, or that through the proxy.
    pub fn page(&self, alloc: Global) -> Result<CowSlice<'a, u8, Global>, AllocError>
        ensures { IfOk result (λ link. cow_slice_items link ≡ page_text self.now) }
    {
        through(alloc, &self.prefix, self.row.url())
    }

    /// Returns the link of the hit: to the article, or else to its page.
    pub fn link(&self, alloc: Global) -> Result<CowSlice<'a, u8, Global>, AllocError>
        ensures { IfOk result (λ link. cow_slice_items link ≡ link_text self.now) }
    {
        match self.article(alloc)? {
            Some(link) => Ok(CowSlice::Owned(link)),
            None => self.page(alloc),
        }
    }

    /// Returns whether the link of the hit is safe. Does not write that to the article.
    pub(crate) fn has_link(&self, alloc: Global) -> Result<bool, AllocError>
        ensures { IfOk result (λ is_safe. is_safe ≡ is_link (link_text self.now)) }
    {
        if self.article.is_some() {
            return Ok(true);
        }
        if !may_be_link(&self.prefix, self.row.url()) {
            return Ok(false);
        }
        let page = self.page(alloc)?;
        Ok(is_link(&page))
    }

    /// Returns how many of some bytes are left beside the link to the page of the hit.
    pub(crate) fn left_beside_page(&self, bytes: usize) -> usize
        ensures { result ≡ bytes - room_of self.now.prefix self.now.hit.row.url }
    {
        left_beside(bytes, &self.prefix, self.row.url())
    }

    /// Returns the note for readers, or nothing.
    pub fn note(&self) -> &'a [u8]
        ensures { result.now ≡ self.now.note }
    {
        match note_on(self.site, self.name.package(), self.row.title_id()) {
            Some(note) => note.as_bytes(),
            None => b"",
        }
    }

    /// Returns whether the hit is open to readers.
    pub(crate) fn is_open(&self) -> bool
        ensures { result ≡ is_open self.now }
    {
        is_readable(self.availability) && !is_abstracts(self.row)
    }

    /// Returns the rank of the hit.
    pub(crate) fn rank(&self) -> u32
        ensures { result ≡ rank_of self.now }
    {
        self.rank
    }

    /// Returns the name of the release.
    pub fn name(&self) -> &'a ReleaseName
        ensures { result.now ≡ self.now.name }
    {
        self.name
    }

    /// Returns the row that matches.
    pub fn row(&self) -> &'a Row
        ensures { result.now ≡ self.now.hit.row }
    {
        self.row
    }

    /// Returns how well the row matches.
    pub fn grade(&self) -> Grade
        ensures { result ≡ self.now.hit.grade }
    {
        self.grade
    }

    /// Returns whether a reader may be sent to the hit without a choice: all days that the query asks for are open, and
    /// the row covers the whole of what is asked for, in full text, and the library has all those days.
    pub(crate) fn is_certain(&self) -> bool
        ensures { result ≡ is_certain self.now }
    {
        matches!(
            (self.availability, self.grade),
            (Availability::Available, Grade::Inside)
        ) && is_full_text(self.row)
            && holds_days(self.site, self.name, self.row, self.asked)
    }

    /// Returns the days that are asked for of the hit.
    pub fn asked(&self) -> Option<DayRange>
        ensures { result ≡ self.now.asked }
    {
        self.asked
    }

    /// Returns how the days that the query asks for lie in those that are open to readers.
    pub fn availability(&self) -> Availability
        ensures { result ≡ self.now.availability }
    {
        self.availability
    }
}

fn is_readable(availability: Availability) -> bool
    ensures { result ≡ is_readable availability }
{
    match availability {
        Availability::Embargoed => false,
        _ => true,
    }
}

fn is_open_or_unknown(availability: Availability) -> bool
    ensures { result ≡ is_open_or_unknown availability }
{
    match availability {
        Availability::Available | Availability::NotCompared => true,
        Availability::Partly | Availability::Embargoed => false,
    }
}

fn is_for_hits(scope: Scope) -> bool
    ensures { result ≡ is_for_hits scope }
{
    match scope {
        Scope::Hits => true,
        Scope::Dated | Scope::Others => false,
    }
}

fn may_be_full_text(row: &Row) -> bool
    ensures { result ≡ may_be_full_text row.now }
{
    is_full_text(row) || is_word(row.depth(), b"")
}

// Returns whether a row leads to the article: it matches the query, readers have it, and it may cover full texts.
fn leads_to_article(scope: Scope, availability: Availability, row: &Row) -> bool
    ensures { result ≡ leads_to_article scope availability row.now }
{
    is_for_hits(scope) && (is_open_or_unknown(availability) && may_be_full_text(row))
}

// Returns how many bytes the link to the cited article has in a row, if the row leads to it and has one.
fn article_len(
    alloc: Global,
    search: &Search<'_>,
    links: &mut CitedLinks<'_>,
    availability: Availability,
    name: &ReleaseName,
    row: &Row,
) -> Result<Option<usize>, AllocError>
    requires { links.old.cited ≡ with_title_id [] search.now.cited }
    ensures same { links.new ≡ links.old }
    ensures len { IfOk result (λ len. len
        ≡ option_map length (article_of links.old.site search.now availability name.now row.now)) }
{
    if leads_to_article(search.scope(), availability, row) {
        let cells = row.cells();
        let (id, url) = (name.package(), cells.title_url);
        links.article_len(alloc, id, url, is_free(row), cells.title_id)
    } else {
        Ok(None)
    }
}

// The days that are asked for of a title. A book is published on a day, and its days are not compared.
fn days_asked(kind: Kind, days: Option<DayRange>) -> Option<DayRange>
    ensures { result ≡ days_asked kind days }
{
    match kind {
        Kind::Serial => days,
        Kind::Book => None,
    }
}

// Returns whether the library has a day of a row of a release.
fn holds_day(site: &SiteFile, name: &ReleaseName, row: &Row, day: i32) -> bool
    ensures { result ≡ holds_day site.now name.now row.now day }
{
    let asked = Some(DayRange {
        first: day,
        last: day,
    });
    let cells = row.cells();
    let (first, last) = (cells.first_day(), cells.last_day());
    library_has(site, name.package(), cells.title_id, first, last, asked)
}

// Returns whether the library has all days that are asked for. Its own days are those from one to another, so it has
// all between two that it has.
fn holds_days(site: &SiteFile, name: &ReleaseName, row: &Row, asked: Option<DayRange>) -> bool
    ensures { result ≡ holds_days site.now name.now row.now asked }
{
    match asked {
        Some(days) => {
            holds_day(site, name, row, days.first) && holds_day(site, name, row, days.last)
        }
        None => true,
    }
}

// Returns whether the library has a row, on some of the days that are asked for if there are such.
fn is_held_on(site: &SiteFile, name: &ReleaseName, row: &Row, days: Option<DayRange>) -> bool
    ensures { result ≡ library_has site.now name.now.package_name row.now.title_id row.now.first_day row.now.last_day
        (days_asked (kind row.now.identifiers) days) }
{
    let cells = row.cells();
    let (first, last) = (cells.first_day(), cells.last_day());
    let asked = days_asked(cells.kind(), days);
    library_has(site, name.package(), cells.title_id, first, last, asked)
}

// Returns whether the library has what a query asks for of a hit of a release.
fn is_held(site: &SiteFile, query: &Query, name: &ReleaseName, hit: &Hit<'_>) -> bool
    ensures { result ≡ is_held site.now query.now name.now (hit_of hit.now) }
{
    is_held_on(site, name, hit.row, query.days())
}

// Returns the same whatever the date is.
fn is_held_ever(site: &SiteFile, query: &Query, name: &ReleaseName, hit: &Hit<'_>) -> bool
    ensures { result ≡ is_held site.now (whole_titles query.now) name.now (hit_of hit.now) }
{
    is_held_on(site, name, hit.row, None)
}

fn is_held_dated(site: &SiteFile, query: &Query, name: &ReleaseName, hit: &Hit<'_>) -> bool
    ensures { result ≡ is_held_dated site.now query.now name.now (hit_of hit.now) }
{
    is_held(site, query, name, hit) && is_dated(hit.row, query)
}

/// Returns whether a hit of a release is searched for, and the library has it.
pub(crate) fn is_found(
    site: &SiteFile,
    search: &Search<'_>,
    name: &ReleaseName,
    hit: &Hit<'_>,
) -> bool
    ensures { result ≡ is_found site.now search.now name.now (hit_of hit.now) }
{
    let query = search.query();
    match search.scope() {
        Scope::Hits => is_held(site, query, name, hit),
        Scope::Dated => is_held_dated(site, query, name, hit),
        Scope::Others => {
            is_held_ever(site, query, name, hit) && !is_held_dated(site, query, name, hit)
        }
    }
}

/// Returns the text of a release's name.
#[tactic(auto, unfolding(crate::specs::Hits::name_text))]
pub fn name_text(name: &ReleaseName) -> &[u8]
    ensures { result.now ≡ name_text name.now }
{
    name.text()
}

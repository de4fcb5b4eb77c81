//! A search for the hits of a query, for the titles whose date is covered, or for those of other dates.
ghost use Rattle.std.specs.Prelude.{◌≡◌, option_map, true};
ghost use Rattle.feed_answer.specs.HitValue.{hit_of};
ghost use Rattle.feed_answer.specs.Places.{hit_at};
ghost use Rattle.feed_answer.specs.QueryValue.{QueryValue};
ghost use Rattle.node_hits.specs.Hits.{links_of};
ghost use Rattle.node_hits.specs.Searches.{asked_hit_at, compared, in_scope, is_asked_at, is_first_as};
ghost use Rattle.node_hits.specs.Searches.{whole_titles, without_volume};
ghost use Rattle.node_hits.specs.declared.search.Scope.TheVariants as scope;

use crate::coverage_grade::{asked_grade, dated_grade};
use crate::lookup::Lookup;
use feed_answer::{Grade, Hit, Query};
use feed_dates::DayRange;
use feed_kbart::{Kind, Row};
use node_links::CitedLinks;
use node_site::SiteFile;
use std::alloc::Global;
use std::marker::Model;

/// Which rows of the titles that a query names are searched for.
#[derive(Clone, Copy)]
pub enum Scope {
    /// Those that match the query.
    Hits,
    /// Those that cover its date, and do not have its volume.
    Dated,
    /// All that are not among these, whatever their dates and their volumes are.
    Others,
}

/// A search for some rows of the titles that a query names.
#[derive(Drop)]
pub struct Search<'a> {
    lookup: &'a Lookup<'a>,
    scope: Scope,
}

impl<'a> Model for Search<'a> {
    ghost use Rattle.node_hits.specs.Searches.{SearchValue, in_scope};

    ghost Value = { SearchValue };

    ghost view = { λ s. in_scope s.scope s.lookup.now };
}

// Returns the row at a place with its grade, if it exists and matches. Does not compare its identifiers.
fn graded_at<'r>(rows: &'r [Row], place: u32, query: &Query) -> Option<Hit<'r>>
    ensures { option_map hit_of result ≡ asked_hit_at query.now rows.now place }
{
    let row = rows.get(place as usize)?;
    let grade = asked_grade(row, query)?;
    Some(Hit { row, grade })
}

// Returns the same with the grade by the date, whatever its volumes are.
fn dated_at<'r>(rows: &'r [Row], place: u32, query: &Query) -> Option<Hit<'r>>
    ensures { option_map hit_of result ≡ asked_hit_at (without_volume query.now) rows.now place }
{
    let row = rows.get(place as usize)?;
    let grade = dated_grade(row, query)?;
    Some(Hit { row, grade })
}

// Returns the same whatever its days and its volumes are.
fn title_at<'r>(rows: &'r [Row], place: u32) -> Option<Hit<'r>>
    ensures { (query : QueryValue) → option_map hit_of result ≡ asked_hit_at (whole_titles query) rows.now place }
{
    let row = rows.get(place as usize)?;
    Some(Hit {
        row,
        grade: Grade::Untested,
    })
}

impl<'a> Search<'a> {
    /// Returns the search for the hits of a query.
    pub fn of(lookup: &'a Lookup<'a>) -> Search<'a>
        ensures { result ≡ lookup.now }
    {
        Search {
            lookup,
            scope: lookup.scope(),
        }
    }

    /// Returns the search for the rows that cover the date of a query, and do not have its volume.
    pub fn dated(lookup: &'a Lookup<'a>) -> Search<'a>
        ensures { result ≡ in_scope scope.Dated lookup.now }
    {
        Search {
            lookup,
            scope: Scope::Dated,
        }
    }

    /// Returns the search for all other rows of the titles that a query names, whatever its date and its volume are.
    pub fn others(lookup: &'a Lookup<'a>) -> Search<'a>
        ensures { result ≡ in_scope scope.Others lookup.now }
    {
        Search {
            lookup,
            scope: Scope::Others,
        }
    }

    /// Returns the query.
    pub(crate) fn query(&self) -> &'a Query
        ensures { result.now ≡ self.now.query }
    {
        self.lookup.query()
    }

    /// Returns what is looked up.
    pub(crate) fn lookup(&self) -> &'a Lookup<'a>
        ensures { in_scope self.now.scope result.now ≡ self.now }
    {
        self.lookup
    }

    /// Returns the links of a site for the search.
    pub fn links(&self, alloc: Global, site: &'a SiteFile) -> CitedLinks<'a>
        ensures { result ≡ links_of site.now self.now }
    {
        CitedLinks::new(alloc, site, self.lookup.cited(b""))
    }

    /// Returns which rows are searched for.
    pub(crate) fn scope(&self) -> Scope
        ensures { result ≡ self.now.scope }
    {
        self.scope
    }

    /// Returns whether a row of this kind comes before others.
    pub(crate) fn is_first(&self, kind: Kind) -> bool
        ensures { result ≡ is_first_as kind self.now.is_book_first }
    {
        match kind {
            Kind::Serial => false,
            Kind::Book => self.lookup.is_book_first(),
        }
    }

    /// Returns the days that rows are compared with.
    pub(crate) fn days(&self) -> Option<DayRange>
        ensures { result ≡ (compared self.now).days }
    {
        match self.scope {
            Scope::Hits => self.query().days(),
            Scope::Dated => self.query().days(),
            Scope::Others => None,
        }
    }

    // Returns the row at a place with its grade, if it exists and matches. Does not compare its identifiers.
    fn asked_hit_at<'r>(&self, rows: &'r [Row], place: u32) -> Option<Hit<'r>>
        ensures { option_map hit_of result ≡ asked_hit_at (compared self.now) rows.now place }
    {
        match self.scope {
            Scope::Hits => graded_at(rows, place, self.query()),
            Scope::Dated => dated_at(rows, place, self.query()),
            Scope::Others => title_at(rows, place),
        }
    }

    /// Returns the row at a place with its grade, if the row exists and matches. It must have one of the identifiers of
    /// the query, as each row has at the places that the index gives for them.
    pub(crate) fn hit_at<'r>(&self, rows: &'r [Row], place: u32) -> Option<Hit<'r>>
        requires { is_asked_at self.now.query rows.now place ≡ true }
        ensures { option_map hit_of result ≡ hit_at (compared self.now) rows.now place }
    {
        self.asked_hit_at(rows, place)
    }
}

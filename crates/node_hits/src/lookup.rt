//! The look-up of a query: its identifiers, its date and its volume, whether a book comes before a serial, and what is
//! cited.
ghost use Rattle.std.specs.Prelude.{◌≡◌, IfOk};
ghost use Rattle.node_hits.specs.Lookups.{first_text, is_book_first, is_of_serials, names_both};

use crate::query_facts::date_text;
use crate::rank::is_word;
use crate::search::Scope;
use feed_answer::Query;
use feed_citation::CitationPart;
use feed_identifiers::{Isbn, Issn};
use feed_openurl::Citation;
use node_links::CitedTitle;
use std::alloc::{AllocError, Global};
use std::marker::Model;

/// What is looked up for a query: its identifiers, its date and its volume, whether a book that it names comes before a
/// serial, and what it cites.
#[derive(Drop)]
pub struct Lookup<'q> {
    query: Query,
    // The hits of the query. A search for other rows of its titles has another scope.
    scope: Scope,
    is_book_first: bool,
    citation: &'q Citation,
    // The first identifiers, as they are printed, and the date as it is understood.
    issn: Vec<u8>,
    isbn: Vec<u8>,
    date: Vec<u8>,
}

impl<'q> Model for Lookup<'q> {
    ghost use Rattle.std.specs.Prelude.{[]};
    ghost use Rattle.node_hits.specs.Searches.{SearchValue};

    ghost Value = { SearchValue };

    ghost view = { λ l. record {
      query = l.query;
      scope = l.scope;
      is_book_first = l.is_book_first;
      cited = record {
        citation = l.citation.now;
        issn = l.issn.items;
        isbn = l.isbn.items;
        date = l.date.items;
        title_id = [];
      };
    } };
}

fn names_both(query: &Query) -> bool
    ensures { result ≡ names_both query.now }
{
    !query.issns().is_empty() && !query.isbns().is_empty()
}

fn is_of_serials(genre: &[u8]) -> bool
    ensures { result ≡ is_of_serials genre.now }
{
    is_word(genre, b"article") || is_word(genre, b"journal")
}

// Returns whether the book comes before the serial.
fn is_book_first(citation: &Citation, query: &Query) -> bool
    ensures { result ≡ is_book_first citation.now query.now }
{
    names_both(query) && !is_of_serials(citation.text(CitationPart::Genre).as_bytes())
}

fn first_issn(alloc: Global, issns: &[Issn]) -> Result<Vec<u8>, AllocError>
    ensures { IfOk result (λ text. text.items ≡ first_text issns.now) }
{
    match issns {
        [first, ..] => Vec::from_slice(alloc, &first.text()),
        [] => Ok(Vec::new(alloc)),
    }
}

fn first_isbn(alloc: Global, isbns: &[Isbn]) -> Result<Vec<u8>, AllocError>
    ensures { IfOk result (λ text. text.items ≡ first_text isbns.now) }
{
    match isbns {
        [first, ..] => Vec::from_slice(alloc, &first.text()),
        [] => Ok(Vec::new(alloc)),
    }
}

impl<'q> Lookup<'q> {
    ghost use Rattle.std.specs.Prelude.{option_copied};
    ghost use Rattle.node_hits.specs.Lookups.{search_of};
    ghost use Rattle.node_links.specs.Articles.{with_title_id};

    /// Returns the lookup for a query with this citation, with its date as it is understood.
    pub(crate) fn of(
        alloc: Global,
        citation: &'q Citation,
        date: Option<&[u8]>,
        query: Query,
    ) -> Result<Lookup<'q>, AllocError>
        ensures { IfOk result (λ lookup. lookup
            ≡ search_of citation.now (option_copied date.entry) query) }
    {
        let is_book_first = is_book_first(citation, &query);
        let issn = first_issn(alloc, query.issns())?;
        let isbn = first_isbn(alloc, query.isbns())?;
        Ok(Lookup {
            query,
            scope: Scope::Hits,
            is_book_first,
            citation,
            issn,
            isbn,
            date: date_text(alloc, date)?,
        })
    }

    /// Returns what the query cites, for a row with this `title_id`.
    pub fn cited<'l>(&'l self, title_id: &'l [u8]) -> CitedTitle<'l>
        ensures { result ≡ with_title_id title_id.now self.now.cited }
    {
        CitedTitle {
            citation: self.citation,
            issn: &self.issn,
            isbn: &self.isbn,
            date: &self.date,
            title_id,
        }
    }

    /// Returns the query: its identifiers, its date and its volume.
    pub fn query(&self) -> &Query
        ensures { result.now ≡ self.now.query }
    {
        &self.query
    }

    /// Returns which rows are looked up: the hits of the query.
    pub(crate) fn scope(&self) -> Scope
        ensures { result ≡ self.now.scope }
    {
        self.scope
    }

    /// Returns whether a book comes before a serial.
    pub(crate) fn is_book_first(&self) -> bool
        ensures { result ≡ self.now.is_book_first }
    {
        self.is_book_first
    }
}

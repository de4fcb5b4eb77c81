//! Parsing the query of an OpenURL.
ghost use Rattle.std.specs.Prelude.{◌≡◌, ◌++◌, ℕ, List, [], ◌∷◌, Some, IfOk, OnOk, fold, if◌then◌else◌, length};
ghost use Rattle.std.specs.List.{cons_option, slice_get};
ghost use Rattle.std.specs.Option.{option_and_then};
ghost use Rattle.std.specs.BTreeSet.{insert_key};
ghost use Rattle.feed_identifiers.specs.Identifier.{isbn_in, issn_in};
ghost use Rattle.feed_answer.specs.IdentifierSet.{IsAscending, bytes_cmp};
ghost use Rattle.feed_answer.specs.declared.fault.QueryFault.TheVariants as fault;

use crate::decode::decode_pairs;
use crate::fault::QueryFault;
use crate::pair::{BOOK, JOURNAL, Pair};
use feed_dates::DayRange;
use feed_identifiers::{Identifier, Isbn, Issn};
use std::alloc::{AllocError, Global};
use std::cmp::Ordering;
use std::marker::Model;

/// The most bytes that a query may have.
pub const QUERY_LIMIT: usize = 4096;

/// A query for serials or books (ANSI/NISO Z39.88-2004, key/value format).
#[derive(Drop)]
pub struct Query {
    issns: Vec<Issn>,
    isbns: Vec<Isbn>,
    days: Option<DayRange>,
    volume: Option<u32>,
}

impl Model for Query {
    ghost use Rattle.feed_answer.specs.QueryValue.{QueryValue};
    ghost use Rattle.feed_answer.specs.IdentifierSet.{IsAscending};

    ghost Value = { QueryValue };

    ghost view = { λ q. record { issns = q.issns.items; isbns = q.isbns.items; days = q.days; volume = q.volume } };

    ghost invariant = { λ q. IsAscending q.issns.items × IsAscending q.isbns.items };
}

impl Query {
    ghost use Rattle.feed_answer.specs.IdentifierSet.{IsAscending};
    ghost use Rattle.feed_answer.specs.Queries.{IsQueryResult};
    ghost use Rattle.feed_answer.specs.QueryValue.{asked, is_named, query_with, sole};

    /// Parses the bytes after the `?` of an OpenURL: pairs of `application/x-www-form-urlencoded` text. Keys are
    /// compared exactly.
    ///
    /// Every `rft.issn`, `rft.eissn` and `rft_id` that names an ISSN counts, and every `rft.isbn` that names an ISBN.
    /// The first valid `rft.date` and the first valid `rft.volume` count. In the format of journals,
    /// `rft_val_fmt=info:ofi/fmt:kev:mtx:journal`, ISBNs do not count; in that of books, `info:ofi/fmt:kev:mtx:book`,
    /// ISSNs do not.
    ///
    /// # Errors
    ///
    /// `TooLong` for more than `QUERY_LIMIT` bytes; `Version` for a `url_ver` or `ctx_ver` other than `Z39.88-2004`;
    /// `OtherFormat` for a `rft_val_fmt` other than these two, and for both together. An empty value
    /// counts as absent. A query without an identifier that counts is `NoIsbn` in the format of books, otherwise
    /// `NoIssn`.
    #[tactic(auto, unfolding(crate::specs::Queries::query_of))]
    pub fn read(alloc: Global, text: &[u8]) -> Result<Query, QueryFault>
        ensures { IsQueryResult text.now result }
    {
        if text.len() > QUERY_LIMIT {
            return Err(QueryFault::TooLong);
        }
        let pairs = decode_pairs(alloc, text)?;
        let parts = QueryParts::of(alloc, &pairs)?;
        if parts.has_other_version {
            return Err(QueryFault::Version);
        }
        if parts.has_other_format || (parts.has_journal_format && parts.has_book_format) {
            return Err(QueryFault::OtherFormat);
        }
        let issns = unless(parts.has_book_format, parts.issns);
        let isbns = unless(parts.has_journal_format, parts.isbns);
        if issns.is_empty() && isbns.is_empty() {
            return Err(without_identifiers(parts.has_book_format));
        }
        Ok(Query {
            issns,
            isbns,
            days: parts.days,
            volume: parts.volume,
        })
    }

    /// Returns the query for identifiers in any order, days and a volume.
    ///
    /// # Errors
    ///
    /// Running out of memory.
    pub fn of(
        alloc: Global,
        issns: &[Issn],
        isbns: &[Isbn],
        days: Option<DayRange>,
        volume: Option<u32>,
    ) -> Result<Query, AllocError>
        ensures { IfOk result (λ query. query ≡ query_with issns.now isbns.now days volume) }
    {
        Ok(Query {
            issns: set_of(alloc, issns)?,
            isbns: set_of(alloc, isbns)?,
            days,
            volume,
        })
    }

    /// Returns the ISSNs asked for, ascending by their nine printed bytes, each once.
    pub fn issns(&self) -> &[Issn]
        ensures value { result.now ≡ self.now.issns }
        ensures ascending { IsAscending self.now.issns }
    {
        &self.issns
    }

    /// Returns the ISBNs asked for, ascending by their thirteen digits, each once.
    pub fn isbns(&self) -> &[Isbn]
        ensures value { result.now ≡ self.now.isbns }
        ensures ascending { IsAscending self.now.isbns }
    {
        &self.isbns
    }

    /// Returns how many identifiers are asked for.
    pub fn count(&self) -> usize
        ensures { result ≡ length (asked self.now) }
    {
        self.issns.len() + self.isbns.len()
    }

    /// Returns the identifier at a place. The ISSNs come first, and then the ISBNs.
    pub fn identifier(&self, place: usize) -> Option<Identifier>
        ensures { result ≡ slice_get (asked self.now) place }
    {
        let count = self.issns.len();
        if place < count {
            return Some(Identifier::Issn(self.issns[place]));
        }
        let isbn = self.isbns.get(place - count)?;
        Some(Identifier::Isbn(*isbn))
    }

    /// Returns the identifier asked for, if there is only one.
    pub fn sole_identifier(&self) -> Option<Identifier>
        ensures { result ≡ sole (asked self.now) }
    {
        if self.count() == 1 {
            self.identifier(0)
        } else {
            None
        }
    }

    /// Returns whether an identifier is asked for.
    pub fn names(&self, identifier: &Identifier) -> bool
        ensures { result ≡ is_named self.now (Some identifier.now) }
    {
        match identifier {
            Identifier::Issn(issn) => self.issns.contains(issn),
            Identifier::Isbn(isbn) => self.isbns.contains(isbn),
        }
    }

    /// Returns the days asked for, both ends included.
    pub fn days(&self) -> Option<DayRange>
        ensures { result ≡ self.now.days }
    {
        self.days
    }

    /// Returns the volume asked for, at most 999,999,999.
    pub fn volume(&self) -> Option<u32>
        ensures { result ≡ self.now.volume }
    {
        self.volume
    }
}

// What the pairs of a query say, as far as they are read.
#[derive(Drop)]
struct QueryParts {
    has_other_version: bool,
    // A format other than those of journals and of books.
    has_other_format: bool,
    has_journal_format: bool,
    has_book_format: bool,
    issns: Vec<Issn>,
    isbns: Vec<Isbn>,
    days: Option<DayRange>,
    volume: Option<u32>,
}

impl QueryParts {
    ghost use Rattle.feed_answer.specs.QueryParts.{AreRead};

    // Adds what a pair says. The first valid date and the first valid volume count.
    fn add(&mut self, pair: &Pair<'_>) -> Result<(), AllocError>
        ensures { OnOk result ((seen : List (List ℕ × List ℕ)) → AreRead seen self.old
            → AreRead (seen ++ pair.now ∷ []) self.new) }
    {
        self.has_other_version |= pair.is_other_version();
        self.has_other_format |= pair.is_other_format();
        self.has_journal_format |= pair.has_format(JOURNAL);
        self.has_book_format |= pair.has_format(BOOK);
        let identifier = pair.identifier();
        add_some(&mut self.issns, issn_in(&identifier))?;
        add_some(&mut self.isbns, isbn_in(&identifier))?;
        self.days = self.days.or(pair.days());
        self.volume = self.volume.or(pair.volume());
        Ok(())
    }

    // Reads the pairs of a query. It has room for about three hundred identifiers, and mostly has one.
    fn of(alloc: Global, pairs: &[Pair<'_>]) -> Result<QueryParts, AllocError>
        ensures { IfOk result (AreRead pairs.now) }
    {
        let mut parts = QueryParts {
            has_other_version: false,
            has_other_format: false,
            has_journal_format: false,
            has_book_format: false,
            issns: Vec::new(alloc),
            isbns: Vec::new(alloc),
            days: None,
            volume: None,
        };
        for pair in pairs {
            parts.add(pair)?;
        }
        Ok(parts)
    }
}

// The ISSN, and the ISBN, if there is an identifier and it is one.
fn issn_in(identifier: &Option<Identifier>) -> Option<Issn>
    ensures { result ≡ option_and_then issn_in identifier.now }
{
    match identifier {
        Some(Identifier::Issn(issn)) => Some(*issn),
        _ => None,
    }
}

fn isbn_in(identifier: &Option<Identifier>) -> Option<Isbn>
    ensures { result ≡ option_and_then isbn_in identifier.now }
{
    match identifier {
        Some(Identifier::Isbn(isbn)) => Some(*isbn),
        _ => None,
    }
}

// Returns identifiers, or none if they do not count in the format.
fn unless<T: Drop>(is_other_format: bool, mut identifiers: Vec<T>) -> Vec<T>
    ensures { result.items ≡ (if is_other_format then [] else identifiers.items) }
{
    if is_other_format {
        identifiers.clear();
    }
    identifiers
}

// The error for a query without identifiers.
fn without_identifiers(has_book_format: bool) -> QueryFault
    ensures { result ≡ (if has_book_format then fault.NoIsbn else fault.NoIssn) }
{
    if has_book_format {
        QueryFault::NoIsbn
    } else {
        QueryFault::NoIssn
    }
}

// Inserts an identifier in its place among ascending ones, unless it is there.
fn add<T: Ord + Copy>(identifiers: &mut Vec<T>, identifier: T) -> Result<(), AllocError>
    ensures { OnOk result (identifiers.new.items ≡ insert_key T.cmp identifiers.old.items identifier) }
{
    for (place, other) in identifiers.iter().enumerate() {
        match identifier.cmp(other) {
            Ordering::Less => return Ok(identifiers.insert(place, identifier)?),
            Ordering::Equal => return Ok(()),
            Ordering::Greater => {}
        }
    }
    Ok(identifiers.push(identifier)?)
}

// The same for an identifier that there may be.
fn add_some<T: Ord + Copy>(
    identifiers: &mut Vec<T>,
    identifier: Option<T>,
) -> Result<(), AllocError>
    ensures { OnOk result (identifiers.new.items
        ≡ fold (insert_key T.cmp) identifiers.old.items (cons_option identifier [])) }
{
    match identifier {
        Some(identifier) => add(identifiers, identifier),
        None => Ok(()),
    }
}

// Returns the set of some identifiers.
fn set_of<T: Ord + Copy>(alloc: Global, identifiers: &[T]) -> Result<Vec<T>, AllocError>
    ensures { IfOk result (λ set. set.items ≡ fold (insert_key T.cmp) [] identifiers.now) }
{
    let mut set = Vec::new(alloc);
    for identifier in identifiers {
        add(&mut set, *identifier)?;
    }
    Ok(set)
}

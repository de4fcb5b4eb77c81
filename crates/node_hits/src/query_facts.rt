//! The facts that a response reports about a query beside its hits.
ghost use Rattle.std.specs.Prelude.{◌≡◌, [], IfOk, option_copied, unwrap_or};
ghost use Rattle.node_hits.specs.QueryFacts.{is_absent, is_blank, names_work, query_text};

use feed_citation::CitationPart;
use feed_openurl::{Citation, OpenUrl};
use std::alloc::{AllocError, Global};
use std::marker::Model;

/// The parts of a citation that a page shows.
pub const SHOWN: [CitationPart; 9] = [
    CitationPart::Article,
    CitationPart::Title,
    CitationPart::Author,
    CitationPart::Date,
    CitationPart::Volume,
    CitationPart::Issue,
    CitationPart::Pages,
    CitationPart::Doi,
    CitationPart::Pmid,
];

/// The facts that a response reports about a query beside its hits.
#[derive(Drop)]
pub struct QueryFacts<'q> {
    pub citation: &'q Citation,
    /// The query that is looked up, as an OpenURL 1.0. It is empty if nothing is looked up.
    pub query: Vec<u8>,
    /// Whether a date is read, and a volume.
    pub has_date: bool,
    pub has_volume: bool,
    /// The date as it is understood, such as `1996-03`, or nothing.
    pub date: Vec<u8>,
}

impl<'q> Model for QueryFacts<'q> {
    ghost use Rattle.node_hits.specs.QueryFacts.{QueryFactsValue};

    ghost Value = { QueryFactsValue };

    ghost view = { λ a. record {
      citation = a.citation.now;
      query = a.query.items;
      has_date = a.has_date;
      has_volume = a.has_volume;
      date = a.date.items;
    } };
}

fn query_text(alloc: Global, understood: &OpenUrl) -> Result<Vec<u8>, AllocError>
    ensures { IfOk result (λ text. text.items ≡ query_text understood.now) }
{
    match understood.refusal() {
        Some(_) => Ok(Vec::new(alloc)),
        None => understood.write(alloc),
    }
}

/// Returns the date of a query as it is understood, or nothing.
pub(crate) fn date_text(alloc: Global, date: Option<&[u8]>) -> Result<Vec<u8>, AllocError>
    ensures { IfOk result (λ text. text.items ≡ unwrap_or (option_copied date.entry) []) }
{
    match date {
        Some(date) => Vec::from_slice(alloc, date),
        None => Ok(Vec::new(alloc)),
    }
}

fn is_absent(citation: &Citation, part: CitationPart) -> bool
    ensures { result ≡ is_absent citation.now part }
{
    citation.text(part).as_bytes().is_empty()
}

/// Returns whether a citation names a work: by its DOI, its PMID or a title.
pub fn names_work(citation: &Citation) -> bool
    ensures { result ≡ names_work citation.now }
{
    !is_absent(citation, CitationPart::Doi)
        || !is_absent(citation, CitationPart::Pmid)
        || !is_absent(citation, CitationPart::Title)
        || !is_absent(citation, CitationPart::Article)
}

/// Returns whether a citation has nothing that a page shows.
pub fn is_blank(citation: &Citation) -> bool
    ensures { result ≡ is_blank citation.now }
{
    SHOWN.iter().all(|part| is_absent(citation, *part))
}

impl<'q> QueryFacts<'q> {
    ghost use Rattle.node_hits.specs.QueryFacts.{ask_by};

    /// Returns the facts about a query with this citation, as it is understood.
    pub(crate) fn of(
        alloc: Global,
        citation: &'q Citation,
        understood: &OpenUrl,
    ) -> Result<QueryFacts<'q>, AllocError>
        ensures { IfOk result (λ ask. ask ≡ ask_by citation.now understood.now) }
    {
        Ok(QueryFacts {
            citation,
            query: query_text(alloc, understood)?,
            has_date: understood.date().is_some(),
            has_volume: understood.volume().is_some(),
            date: date_text(alloc, understood.date())?,
        })
    }
}

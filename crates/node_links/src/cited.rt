//! A citation, and its parts by the names that templates have for them.
ghost use Rattle.std.specs.Prelude.{◌≡◌, ◌++◌, IfOk, OnOk, drop, take};
ghost use Rattle.std.specs.List.{flat_map};
ghost use Rattle.node_links.specs.Articles.{row_part};
ghost use Rattle.node_links.specs.Requests.{citation_query, field_text, if_short, is_step, key_of, pair_text, part_of};
ghost use Rattle.node_links.specs.Requests.{part_pair, part_value, without_hyphens, without_step};

use feed_citation::{CitationPart, PARTS};
use feed_openurl::Citation;
use node_site::{Field, encoded};
use std::alloc::{AllocError, Global};
use std::marker::Model;

// The most bytes of a value in a link, before they are escaped: a longer value counts as absent, so that a client
// cannot make each link of an answer long.
const VALUE_LIMIT: usize = 1_000;

/// A citation, the identifiers of a query, its date as it is understood, such as `1996-03`, and the `title_id` of a
/// row, for the names in templates. An absent one is empty.
#[derive(Drop)]
pub struct CitedTitle<'a> {
    pub citation: &'a Citation,
    pub issn: &'a [u8],
    pub isbn: &'a [u8],
    pub date: &'a [u8],
    pub title_id: &'a [u8],
}

impl<'a> Model for CitedTitle<'a> {
    ghost use Rattle.node_links.specs.Requests.{CitedTitleValue};

    ghost Value = { CitedTitleValue };

    ghost view = { λ c. record {
      citation = c.citation.now;
      issn = c.issn.now;
      isbn = c.isbn.now;
      date = c.date.now;
      title_id = c.title_id.now;
    } };
}

// Returns the key of a part in OpenURL 1.0, behind the pairs before it.
fn key_of(part: CitationPart) -> &'static [u8]
    ensures { result.now ≡ key_of part }
{
    match part {
        CitationPart::Article => b"&rft.atitle=",
        CitationPart::Title => b"&rft.title=",
        CitationPart::Author => b"&rft.au=",
        CitationPart::Date => b"&rft.date=",
        CitationPart::Volume => b"&rft.volume=",
        CitationPart::Issue => b"&rft.issue=",
        CitationPart::Page => b"&rft.spage=",
        CitationPart::Doi => b"&rft_id=info%3Adoi%2F",
        CitationPart::Pmid => b"&rft_id=info%3Apmid%2F",
        CitationPart::Genre => b"&rft.genre=",
        CitationPart::LastName => b"&rft.aulast=",
        CitationPart::FirstName => b"&rft.aufirst=",
        CitationPart::LastPage => b"&rft.epage=",
        CitationPart::Pages => b"&rft.pages=",
        CitationPart::Series => b"&rft.series=",
        CitationPart::Edition => b"&rft.edition=",
        CitationPart::Publisher => b"&rft.pub=",
        CitationPart::Place => b"&rft.place=",
        CitationPart::Institution => b"&rft.inst=",
    }
}

// Writes a pair of a query, unless its value is absent.
fn put_pair(alloc: Global, out: &mut Vec<u8>, key: &[u8], text: &[u8]) -> Result<(), AllocError>
    ensures { OnOk result (out.new.items ≡ out.old.items ++ pair_text key.now text.now) }
{
    match text {
        [] => Ok(()),
        [_, ..] => {
            let value = encoded(alloc, text)?;
            out.extend_from_slice(key)?;
            out.extend_from_slice(value.as_bytes())
        }
    }
}

fn if_short(text: &[u8]) -> &[u8]
    ensures { result.now ≡ if_short text.now }
{
    if text.len() > VALUE_LIMIT { b"" } else { text }
}

// Returns a part of a citation, as links have it.
fn part_value(citation: &Citation, part: CitationPart) -> &[u8]
    ensures { result.now ≡ part_value citation.now part }
{
    if_short(citation.text(part).as_bytes())
}

fn put_part(
    alloc: Global,
    out: &mut Vec<u8>,
    citation: &Citation,
    part: CitationPart,
) -> Result<(), AllocError>
    ensures { OnOk result (out.new.items ≡ out.old.items ++ part_pair citation.now part) }
{
    put_pair(alloc, out, key_of(part), part_value(citation, part))
}

fn put_parts(
    alloc: Global,
    out: &mut Vec<u8>,
    citation: &Citation,
    parts: &[CitationPart],
) -> Result<(), AllocError>
    ensures { OnOk result (out.new.items ≡ out.old.items ++ flat_map (part_pair citation.now) parts.now) }
{
    for part in parts {
        put_part(alloc, out, citation, *part)?;
    }
    Ok(())
}

/// Returns the whole citation as the query of an OpenURL 1.0.
///
/// # Errors
///
/// Running out of memory.
#[tactic(auto, unfolding(crate::specs::Requests::citation_query))]
pub fn citation_query(alloc: Global, cited: &CitedTitle<'_>) -> Result<Vec<u8>, AllocError>
    ensures { IfOk result (λ query. query.items ≡ citation_query cited.now) }
{
    let mut query = Vec::from_slice(alloc, b"url_ver=Z39.88-2004")?;
    put_pair(alloc, &mut query, b"&rft.issn=", cited.issn)?;
    put_pair(alloc, &mut query, b"&rft.isbn=", cited.isbn)?;
    put_parts(alloc, &mut query, cited.citation, &PARTS)?;
    Ok(query)
}

fn without_hyphens(text: Vec<u8>) -> Vec<u8>
    ensures { result.items ≡ without_hyphens text.items }
{
    let mut plain = text;
    plain.retain(|byte| *byte != b'-');
    plain
}

fn front(text: &[u8], len: usize) -> &[u8]
    ensures { result.now ≡ take len text.now }
{
    &text[..text.len().min(len)]
}

fn behind(text: &[u8], len: usize) -> &[u8]
    ensures { result.now ≡ drop len text.now }
{
    &text[text.len().min(len)..]
}

// Returns what is known for a field.
fn field_text(
    alloc: Global,
    cited: &CitedTitle<'_>,
    field: Option<Field>,
) -> Result<Vec<u8>, AllocError>
    ensures { IfOk result (λ text. text.items ≡ field_text cited.now field) }
{
    match field {
        Some(Field::Issn) => Vec::from_slice(alloc, cited.issn),
        Some(Field::IssnPlain) => Ok(without_hyphens(Vec::from_slice(alloc, cited.issn)?)),
        Some(Field::Isbn) => Vec::from_slice(alloc, cited.isbn),
        Some(Field::TitleId) => Vec::from_slice(alloc, if_short(cited.title_id)),
        Some(Field::Year) => Vec::from_slice(alloc, front(cited.date, 4)),
        Some(Field::Month) => Vec::from_slice(alloc, front(behind(cited.date, 5), 2)),
        Some(Field::Query) => citation_query(alloc, cited),
        Some(Field::Cited(part)) => Vec::from_slice(alloc, part_value(cited.citation, part)),
        None => Ok(Vec::new(alloc)),
    }
}

// Returns whether a text is a step of a path, also if it is escaped.
fn is_step(text: &[u8]) -> bool
    ensures { result ≡ is_step text.now }
{
    text == b".".as_slice() || text == b"..".as_slice()
}

fn without_step(alloc: Global, text: Vec<u8>) -> Vec<u8>
    ensures { result.items ≡ without_step text.items }
{
    if is_step(&text) {
        Vec::new(alloc)
    } else {
        text
    }
}

/// Returns the part of a template that a row with this `title_id` gives.
pub(crate) fn row_part(title_id: &[u8]) -> &[u8]
    ensures { result.now ≡ row_part title_id.now }
{
    let text = if_short(title_id);
    if is_step(text) { b"" } else { text }
}

/// Returns the part of this name.
pub(crate) fn part_of(
    alloc: Global,
    cited: &CitedTitle<'_>,
    name: &[u8],
) -> Result<Vec<u8>, AllocError>
    ensures { IfOk result (λ part. part.items ≡ part_of cited.now name.now) }
{
    let text = field_text(alloc, cited, Field::named(name))?;
    Ok(without_step(alloc, text))
}

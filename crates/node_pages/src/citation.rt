//! Writes the beginning of a page with the citation of a query, with links to what has a DOI or a PMID.
ghost use Rattle.std.specs.Prelude.{◌≡◌, ◌++◌, IfOk, OnOk};
ghost use Rattle.std.specs.List.{list_all};
ghost use Rattle.node_templates.specs.Pages.{page_text};
ghost use Rattle.feed_openurl.specs.Citations.{text_at};
ghost use Rattle.node_pages.specs.Citations.{cited_mark, cited_top, doi_address, is_mark, is_plain, names_parts};
ghost use Rattle.node_pages.specs.Citations.{names_with, place_parts, work_parts};

use crate::coins::{is_cited, put_coins};
use crate::form::{isbn_in, issn_in};
use feed_answer::Pair;
use feed_citation::CitationPart;
use node_hits::QueryFacts;
use node_links::doi_link;
use node_site::SiteFile;
use node_templates::{Slot, Template, put_page, text_if};
use std::alloc::{AllocError, Global};

const CITED_TOP: [Template; 2] = [Template::Top, Template::CitedWork];

fn is_mark(byte: u8) -> bool
    ensures { result ≡ is_mark byte }
{
    matches!(byte, b'-' | b'.' | b'_' | b';' | b'(' | b')' | b'/' | b':')
}

fn is_plain(byte: u8) -> bool
    ensures { result ≡ is_plain byte }
{
    byte.is_ascii_alphanumeric() || is_mark(byte)
}

// Returns whether a name needs no encoding in an address.
fn is_all_plain(text: &[u8]) -> bool
    ensures { result ≡ list_all is_plain text.now }
{
    text.iter().all(|byte| is_plain(*byte))
}

// Returns a part of the citation of a query.
fn cited<'q>(ask: &QueryFacts<'q>, part: CitationPart) -> &'q [u8]
    ensures { result.now ≡ text_at ask.now.citation part }
{
    ask.citation.text(part).as_bytes()
}

// Returns a value for the slot of a citation that has any part.
fn cited_mark(pairs: &[Pair<'_>], ask: &QueryFacts<'_>) -> &'static [u8]
    ensures { result.now ≡ cited_mark pairs.now ask.now }
{
    text_if(is_cited(pairs, ask), b"cited")
}

// Writes the beginning of the page, and the cited work with its numbers.
#[tactic(auto, unfolding(crate::specs::Citations::work_parts))]
fn put_work(
    out: &mut Vec<u8>,
    site: &SiteFile,
    heading: &[u8],
    pairs: &[Pair<'_>],
    ask: &QueryFacts<'_>,
) -> Result<(), AllocError>
    ensures { OnOk result (out.new.items
        ≡ out.old.items ++ page_text site.now (work_parts heading.now pairs.now ask.now)) }
{
    put_page(
        out,
        site,
        &CITED_TOP,
        &[
            (Slot::Heading, heading),
            (Slot::Cited, cited_mark(pairs, ask)),
            (Slot::Article, cited(ask, CitationPart::Article)),
            (Slot::Work, cited(ask, CitationPart::Title)),
            (Slot::Author, cited(ask, CitationPart::Author)),
            (Slot::Issn, issn_in(pairs)),
            (Slot::Isbn, isbn_in(pairs)),
        ],
    )
}

// Writes the place in the work. A date and a volume are understood, or have a note.
#[tactic(auto, unfolding(crate::specs::Citations::place_parts))]
fn put_place(out: &mut Vec<u8>, site: &SiteFile, ask: &QueryFacts<'_>) -> Result<(), AllocError>
    ensures { OnOk result (out.new.items ≡ out.old.items ++ page_text site.now (place_parts ask.now)) }
{
    let date = cited(ask, CitationPart::Date);
    let volume = cited(ask, CitationPart::Volume);
    put_page(
        out,
        site,
        &[Template::CitedPlace],
        &[
            (Slot::DateRead, text_if(ask.has_date, date)),
            (Slot::DateNoted, text_if(!ask.has_date, date)),
            (Slot::VolumeRead, text_if(ask.has_volume, volume)),
            (Slot::VolumeNoted, text_if(!ask.has_volume, volume)),
            (Slot::Issue, cited(ask, CitationPart::Issue)),
            (Slot::FirstPage, cited(ask, CitationPart::Pages)),
        ],
    )
}

// Returns the link to what a DOI names, if the DOI needs no encoding in an address, or nothing.
fn doi_address(alloc: Global, site: &SiteFile, doi: &[u8]) -> Result<Vec<u8>, AllocError>
    ensures { IfOk result (λ address. address.items ≡ doi_address site.now doi.now) }
{
    if doi.is_empty() || !is_all_plain(doi) {
        return Ok(Vec::new(alloc));
    }
    match doi_link(alloc, site, doi)? {
        Some(link) => Ok(link),
        None => Ok(Vec::new(alloc)),
    }
}

// Writes the names of the work with this link to what its DOI names, and the end of the citation.
#[tactic(auto, unfolding(crate::specs::Citations::names_with))]
fn put_names_with(
    out: &mut Vec<u8>,
    site: &SiteFile,
    pairs: &[Pair<'_>],
    ask: &QueryFacts<'_>,
    address: &[u8],
) -> Result<(), AllocError>
    ensures { OnOk result (out.new.items
        ≡ out.old.items ++ page_text site.now (names_with pairs.now ask.now address.now)) }
{
    let doi = cited(ask, CitationPart::Doi);
    let pmid = cited(ask, CitationPart::Pmid);
    put_page(
        out,
        site,
        &[Template::CitedNames],
        &[
            (Slot::DoiAddress, address),
            (Slot::DoiLink, doi),
            (Slot::Doi, text_if(address.is_empty(), doi)),
            (Slot::PmidLink, text_if(is_all_plain(pmid), pmid)),
            (Slot::Pmid, text_if(!is_all_plain(pmid), pmid)),
            (Slot::Cited, cited_mark(pairs, ask)),
        ],
    )
}

// Writes the names of the work, and the end of the citation.
fn put_names(
    out: &mut Vec<u8>,
    site: &SiteFile,
    pairs: &[Pair<'_>],
    ask: &QueryFacts<'_>,
) -> Result<(), AllocError>
    ensures { OnOk result (out.new.items
        ≡ out.old.items ++ page_text site.now (names_parts site.now pairs.now ask.now)) }
{
    let address = doi_address(*out.allocator(), site, cited(ask, CitationPart::Doi))?;
    put_names_with(out, site, pairs, ask, &address)
}

/// Writes the beginning of a page with this heading, and the citation of a query with its ISSN and its ISBN, if there
/// is anything in it, for readers and for programs.
#[tactic(auto, unfolding(node_templates::specs::Pages::page_text, crate::specs::Citations::cited_top))]
pub(crate) fn put_cited_top(
    out: &mut Vec<u8>,
    site: &SiteFile,
    heading: &[u8],
    pairs: &[Pair<'_>],
    ask: &QueryFacts<'_>,
) -> Result<(), AllocError>
    ensures { OnOk result (out.new.items
        ≡ out.old.items ++ page_text site.now (cited_top site.now heading.now pairs.now ask.now)) }
{
    put_work(out, site, heading, pairs, ask)?;
    put_place(out, site, ask)?;
    put_names(out, site, pairs, ask)?;
    put_coins(out, site, pairs, ask)
}

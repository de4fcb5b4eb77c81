//! Writes the links of a library: to its forms, its catalogue and its chat.
ghost use Rattle.std.specs.Prelude.{◌≡◌, ◌++◌, OnOk};
ghost use Rattle.node_templates.specs.Pages.{page_text};
ghost use Rattle.node_pages.specs.Ways.{cited_of, way_items, way_parts, ways, ways_to};

use crate::form::{isbn_in, issn_in};
use crate::lists::list_mark;
use feed_answer::Pair;
use node_hits::QueryFacts;
use node_links::{CitedTitle, LibraryLink, library_links};
use node_site::{LinkUse, SearchOutcome, SiteFile};
use node_templates::{Slot, Template, put_page};
use std::alloc::{AllocError, Global};

/// Returns what a query with these pairs cites, for the links of a library.
pub(crate) fn cited_of<'p>(ask: &'p QueryFacts<'_>, pairs: &'p [Pair<'_>]) -> CitedTitle<'p>
    ensures { result ≡ cited_of ask.now pairs.now }
{
    CitedTitle {
        citation: ask.citation,
        issn: issn_in(pairs),
        isbn: isbn_in(pairs),
        date: &ask.date,
        title_id: b"",
    }
}

#[tactic(auto, unfolding(crate::specs::Ways::way_parts))]
fn put_way(out: &mut Vec<u8>, site: &SiteFile, link: &LibraryLink<'_>) -> Result<(), AllocError>
    ensures { OnOk result (out.new.items ≡ out.old.items ++ page_text site.now (way_parts link.now)) }
{
    put_page(
        out,
        site,
        &[Template::Way],
        &[(Slot::Label, link.label()), (Slot::Way, link.address())],
    )
}

/// Writes the links as items of a list.
#[tactic(auto, unfolding(node_templates::specs::Pages::page_text))]
pub(crate) fn put_items(
    out: &mut Vec<u8>,
    site: &SiteFile,
    links: &[LibraryLink<'_>],
) -> Result<(), AllocError>
    ensures { OnOk result (out.new.items ≡ out.old.items ++ page_text site.now (way_items links.now)) }
{
    for link in links {
        put_way(out, site, link)?;
    }
    Ok(())
}

// Writes the links as a list, and the heading of the form behind it.
#[tactic(auto, unfolding(node_templates::specs::Pages::page_text, crate::specs::Ways::ways))]
fn put_ways(out: &mut Vec<u8>, site: &SiteFile, links: &[LibraryLink<'_>]) -> Result<(), AllocError>
    ensures { OnOk result (out.new.items ≡ out.old.items ++ page_text site.now (ways links.now)) }
{
    let mark = list_mark(links.is_empty());
    put_page(out, site, &[Template::Ways], &[(Slot::Listed, mark)])?;
    put_items(out, site, links)?;
    put_page(out, site, &[Template::WaysEnd], &[(Slot::Listed, mark)])
}

/// Writes the links of a library to what is cited, if the search had this outcome, and the heading of the form behind
/// them.
#[tactic(auto, unfolding(crate::specs::Ways::ways_to))]
pub(crate) fn put_ways_to(
    alloc: Global,
    out: &mut Vec<u8>,
    site: &SiteFile,
    outcome: SearchOutcome,
    cited: &CitedTitle<'_>,
) -> Result<(), AllocError>
    ensures { OnOk result (out.new.items
        ≡ out.old.items ++ page_text site.now (ways_to site.now outcome cited.now)) }
{
    let links = library_links(alloc, site, LinkUse::Shown, outcome, cited)?;
    put_ways(out, site, &links)
}

//! Writes the fragments that other sites have in pages of their own: the hits of a query, or why there are none. They
//! are what a page has between its citation and its form.
ghost use Rattle.std.specs.Prelude.{◌≡◌, ◌++◌, OnOk};
ghost use Rattle.node_templates.specs.Pages.{page_text};
ghost use Rattle.node_hits.specs.Tallying.{tally_from};
ghost use Rattle.node_pages.specs.Fragments.{error_fragment, fragment_end, fragment_of_hits, fragment_of_nothing};
ghost use Rattle.node_pages.specs.Fragments.{fragment_reasons, fragment_reasons_with, fragment_start};
ghost use Rattle.node_pages.specs.Fragments.{fragment_ways, fragment_ways_to};

use crate::card::{Fit, put_cards};
use crate::form::{isbn_in, issn_in};
use crate::heading::heading_of;
use crate::hits_page::{Tallies, is_none, note_of, put_list_end};
use crate::lists::list_mark;
use crate::number_faults::{NumberKind, fault_words};
use crate::ways::{cited_of, put_items};
use feed_answer::Pair;
use feed_citation::CitationPart;
use node_hits::{QueryFacts, Tally};
use node_links::{CitedTitle, LibraryLink, library_links};
use node_site::{LinkUse, SearchOutcome, SiteFile, Text, text_of};
use node_templates::{Slot, Template, put_page, text_or_nothing};
use std::alloc::{AllocError, Global};

// The heading, the statement about the hits, and the beginning of their list.
const FRAGMENT_START: [Template; 3] = [Template::FragmentTop, Template::Note, Template::Cards];

// The heading, the statement that nothing is looked up, and what is wrong with the numbers.
const FRAGMENT_NOTHING: [Template; 3] = [
    Template::FragmentTop,
    Template::Note,
    Template::NumberFaults,
];

const FRAGMENT_ERROR: [Template; 3] = [
    Template::FragmentTop,
    Template::Fault,
    Template::FragmentEnd,
];

#[tactic(auto, unfolding(crate::specs::Fragments::fragment_start))]
fn put_fragment_start(
    alloc: Global,
    out: &mut Vec<u8>,
    site: &SiteFile,
    tally: &Tally<'_>,
    is_none: bool,
) -> Result<(), AllocError>
    ensures { OnOk result (out.new.items
        ≡ out.old.items ++ page_text site.now (fragment_start site.now (tally_from tally.now) is_none)) }
{
    let heading = heading_of(alloc, site, tally)?;
    put_page(
        out,
        site,
        &FRAGMENT_START,
        &[
            (Slot::Heading, &heading),
            (Slot::Note, text_or_nothing(site, note_of(tally, is_none))),
            (Slot::Listed, list_mark(is_none)),
        ],
    )
}

// Writes the links as a list, and the end of the fragment.
#[tactic(auto, unfolding(node_templates::specs::Pages::page_text, crate::specs::Fragments::fragment_ways))]
fn put_fragment_ways(
    out: &mut Vec<u8>,
    site: &SiteFile,
    links: &[LibraryLink<'_>],
) -> Result<(), AllocError>
    ensures { OnOk result (out.new.items ≡ out.old.items ++ page_text site.now (fragment_ways links.now)) }
{
    let mark = list_mark(links.is_empty());
    put_page(
        out,
        site,
        &[Template::FragmentWays],
        &[(Slot::Listed, mark)],
    )?;
    put_items(out, site, links)?;
    put_page(out, site, &[Template::FragmentEnd], &[(Slot::Listed, mark)])
}

// Writes the links of a library to what is cited, if the search had this outcome, and the end of the fragment.
#[tactic(auto, unfolding(crate::specs::Fragments::fragment_ways_to))]
fn put_fragment_ways_to(
    alloc: Global,
    out: &mut Vec<u8>,
    site: &SiteFile,
    outcome: SearchOutcome,
    cited: &CitedTitle<'_>,
) -> Result<(), AllocError>
    ensures { OnOk result (out.new.items
        ≡ out.old.items ++ page_text site.now (fragment_ways_to site.now outcome cited.now)) }
{
    let links = library_links(alloc, site, LinkUse::Shown, outcome, cited)?;
    put_fragment_ways(out, site, &links)
}

// Writes what is behind the cards.
#[tactic(auto, unfolding(node_templates::specs::Pages::page_text, crate::specs::Fragments::fragment_end))]
fn put_fragment_end(
    alloc: Global,
    out: &mut Vec<u8>,
    site: &SiteFile,
    pairs: &[Pair<'_>],
    ask: &QueryFacts<'_>,
    tally: &Tally<'_>,
    is_none: bool,
) -> Result<(), AllocError>
    ensures { OnOk result (out.new.items
        ≡ out.old.items
        ++ page_text site.now (fragment_end site.now pairs.now ask.now (tally_from tally.now) is_none)) }
{
    put_list_end(alloc, out, site, tally, is_none)?;
    put_fragment_ways_to(alloc, out, site, tally.outcome(), &cited_of(ask, pairs))
}

/// Writes the fragment for a query with these pairs: the heading of its page, the cards of the hits that their tally
/// shows, those of the two other tallies, and the links of the library.
#[tactic(auto, unfolding(node_templates::specs::Pages::page_text, crate::specs::Fragments::fragment_of_hits))]
pub fn put_hits_fragment(
    alloc: Global,
    out: &mut Vec<u8>,
    site: &SiteFile,
    pairs: &[Pair<'_>],
    ask: &QueryFacts<'_>,
    found: &Tallies<'_>,
) -> Result<(), AllocError>
    ensures { OnOk result (out.new.items
        ≡ out.old.items
        ++ fragment_of_hits site.now pairs.now ask.now (tally_from found.now.hits) (tally_from found.now.also)
        (tally_from found.now.others)) }
{
    let cited = ask.citation.text(CitationPart::Title).as_bytes();
    let is_none = is_none(found);
    put_fragment_start(alloc, out, site, &found.hits, is_none)?;
    put_cards(out, site, cited, Fit::Hit, found.hits.top())?;
    put_cards(out, site, cited, Fit::Dated, found.also.top())?;
    put_cards(out, site, cited, Fit::Outside, found.others.top())?;
    put_fragment_end(alloc, out, site, pairs, ask, &found.hits, is_none)
}

#[tactic(auto, unfolding(crate::specs::Fragments::fragment_reasons_with))]
fn put_fragment_reasons_with(
    out: &mut Vec<u8>,
    site: &SiteFile,
    pairs: &[Pair<'_>],
    issn_fault: &[u8],
    isbn_fault: &[u8],
) -> Result<(), AllocError>
    ensures { OnOk result (out.new.items
        ≡ out.old.items
        ++ page_text site.now (fragment_reasons_with site.now pairs.now issn_fault.now isbn_fault.now)) }
{
    put_page(
        out,
        site,
        &FRAGMENT_NOTHING,
        &[
            (Slot::Heading, text_of(site, Text::NothingToLookUp)),
            (Slot::Note, text_of(site, Text::NoNumber)),
            (Slot::Issn, issn_in(pairs)),
            (Slot::IssnFault, issn_fault),
            (Slot::Isbn, isbn_in(pairs)),
            (Slot::IsbnFault, isbn_fault),
        ],
    )
}

// Writes that nothing is looked up, and why.
#[tactic(auto, unfolding(crate::specs::Fragments::fragment_reasons))]
fn put_fragment_reasons(
    alloc: Global,
    out: &mut Vec<u8>,
    site: &SiteFile,
    pairs: &[Pair<'_>],
) -> Result<(), AllocError>
    ensures { OnOk result (out.new.items
        ≡ out.old.items ++ page_text site.now (fragment_reasons site.now pairs.now)) }
{
    let issn_fault = fault_words(alloc, site, NumberKind::Issn, issn_in(pairs))?;
    let isbn_fault = fault_words(alloc, site, NumberKind::Isbn, isbn_in(pairs))?;
    put_fragment_reasons_with(out, site, pairs, &issn_fault, &isbn_fault)
}

/// Writes the fragment for a query with these pairs, which has no number that can be looked up: what the page says of
/// it, and the links of the library.
#[tactic(auto, unfolding(node_templates::specs::Pages::page_text, crate::specs::Fragments::fragment_of_nothing))]
pub(crate) fn put_nothing_fragment(
    alloc: Global,
    out: &mut Vec<u8>,
    site: &SiteFile,
    pairs: &[Pair<'_>],
    ask: &QueryFacts<'_>,
) -> Result<(), AllocError>
    ensures { OnOk result (out.new.items
        ≡ out.old.items ++ fragment_of_nothing site.now pairs.now ask.now) }
{
    put_fragment_reasons(alloc, out, site, pairs)?;
    put_fragment_ways_to(
        alloc,
        out,
        site,
        SearchOutcome::Unknown,
        &cited_of(ask, pairs),
    )
}

/// Writes the fragment of an error, which has its name. What a page says of it speaks of its form.
#[tactic(auto, unfolding(crate::specs::Fragments::error_fragment, crate::specs::Fragments::error_fragment_parts))]
pub(crate) fn put_error_fragment<'a>(
    out: &mut Vec<u8>,
    site: &'a SiteFile,
    name: &'a [u8],
) -> Result<(), AllocError>
    ensures { OnOk result (out.new.items ≡ out.old.items ++ error_fragment site.now name.now) }
{
    put_page(
        out,
        site,
        &FRAGMENT_ERROR,
        &[
            (Slot::Heading, text_of(site, Text::NotAnswered)),
            (Slot::Fault, name),
            (Slot::Listed, b""),
        ],
    )
}

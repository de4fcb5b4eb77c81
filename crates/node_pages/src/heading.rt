//! The heading of a page of hits.
ghost use Rattle.std.specs.Prelude.{◌≡◌, ◌++◌, IfOk, OnOk};
ghost use Rattle.std.specs.List.{list_all, list_any};
ghost use Rattle.node_hits.specs.Tallying.{tally_from};
ghost use Rattle.node_pages.specs.Headings.{found_name, has_abstracts, has_full_text, heading, is_embargoed};
ghost use Rattle.node_pages.specs.Headings.{is_readable, is_waiting, name_of, none_name};

use crate::opening::{earliest, put_opening};
use feed_answer::Availability;
use node_hits::{RankedHit, ReleaseHit, Tally, is_abstracts, is_full_text};
use node_response::put;
use node_site::{SiteFile, Text, text_of};
use std::alloc::{AllocError, Global};

/// Returns whether none of the days that are asked for is open to readers.
pub(crate) fn is_embargoed(availability: Availability) -> bool
    ensures { result ≡ is_embargoed availability }
{
    availability == Availability::Embargoed
}

fn has_full_text(found: &ReleaseHit<'_>) -> bool
    ensures { result ≡ has_full_text found.now }
{
    is_full_text(found.row())
}

fn is_readable(found: &ReleaseHit<'_>) -> bool
    ensures { result ≡ is_readable found.now }
{
    has_full_text(found) && !is_embargoed(found.availability())
}

fn has_abstracts(found: &ReleaseHit<'_>) -> bool
    ensures { result ≡ has_abstracts found.now }
{
    is_abstracts(found.row())
}

fn is_any_full_text(hits: &[RankedHit<'_>]) -> bool
    ensures { result ≡ list_any has_full_text hits.now }
{
    hits.iter().any(|hit| has_full_text(hit.hit()))
}

fn is_any_readable(hits: &[RankedHit<'_>]) -> bool
    ensures { result ≡ list_any is_readable hits.now }
{
    hits.iter().any(|hit| is_readable(hit.hit()))
}

fn are_abstracts(hits: &[RankedHit<'_>]) -> bool
    ensures { result ≡ list_all has_abstracts hits.now }
{
    hits.iter().all(|hit| has_abstracts(hit.hit()))
}

// Returns whether there is full text, and an embargo keeps all of it from readers.
fn is_waiting(hits: &[RankedHit<'_>]) -> bool
    ensures { result ≡ is_waiting hits.now }
{
    !is_any_readable(hits) && is_any_full_text(hits)
}

fn none_name(is_whole: bool) -> Text
    ensures { result ≡ none_name is_whole }
{
    if is_whole {
        Text::NoFullText
    } else {
        Text::NoFullTextSoFar
    }
}

fn found_name(shows_all: bool, hits: &[RankedHit<'_>]) -> Text
    ensures { result ≡ found_name shows_all hits.now }
{
    if is_any_readable(hits) {
        Text::FullText
    } else if shows_all && are_abstracts(hits) {
        Text::AbstractOnly
    } else {
        Text::Held
    }
}

fn name_of(tally: &Tally<'_>) -> Text
    ensures { result ≡ name_of (tally_from tally.now) }
{
    if tally.count() == 0 {
        none_name(tally.is_whole())
    } else {
        found_name(tally.shows_all(), tally.top())
    }
}

fn put_heading(out: &mut Vec<u8>, site: &SiteFile, tally: &Tally<'_>) -> Result<(), AllocError>
    ensures { OnOk result (out.new.items ≡ out.old.items ++ heading site.now (tally_from tally.now)) }
{
    if is_waiting(tally.top()) {
        put_opening(out, site, earliest(tally.top()))
    } else {
        put(out, text_of(site, name_of(tally)))
    }
}

/// Returns the heading of a page of hits: whether there is full text that readers may see, from which day there is, or
/// that there are abstracts alone, other holdings, or none.
pub(crate) fn heading_of(
    alloc: Global,
    site: &SiteFile,
    tally: &Tally<'_>,
) -> Result<Vec<u8>, AllocError>
    ensures { IfOk result (λ words. words.items ≡ heading site.now (tally_from tally.now)) }
{
    let mut words = Vec::new(alloc);
    put_heading(&mut words, site, tally)?;
    Ok(words)
}

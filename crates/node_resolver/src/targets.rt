//! The address to which `/go` redirects.
ghost use Rattle.std.specs.Prelude.{◌≡◌, IfOk, option_map};
ghost use Rattle.std.specs.Cow.{cow_slice_items};
ghost use Rattle.node_hits.specs.Tallying.{tally_from};
ghost use Rattle.node_resolver.specs.Responses.{closed_target, first_address, library_target, target_in};

use node_hits::{Lookup, Tally};
use node_links::{LibraryLink, library_links};
use node_site::{LinkUse, SearchOutcome, SiteFile};
use std::alloc::{AllocError, Global};
use std::borrow::CowSlice;

/// Returns a link of its own, if there is one.
pub(crate) fn owned(
    alloc: Global,
    link: Option<CowSlice<'_, u8, Global>>,
) -> Result<Option<Vec<u8>>, AllocError>
    ensures { IfOk result (λ own. option_map (λ text. text.items) own ≡ option_map cow_slice_items link.entry) }
{
    match link {
        Some(link) => Ok(Some(link.into_owned(alloc)?)),
        None => Ok(None),
    }
}

fn first_address(alloc: Global, links: &[LibraryLink<'_>]) -> Result<Option<Vec<u8>>, AllocError>
    ensures { IfOk result (λ address. option_map (λ text. text.items) address ≡ first_address links.now) }
{
    match links.split_first() {
        Some((link, _)) => Ok(Some(Vec::from_slice(alloc, link.address())?)),
        None => Ok(None),
    }
}

// Returns the library's link to which a reader is sent who finds no open hit.
fn library_target(
    alloc: Global,
    site: &SiteFile,
    outcome: SearchOutcome,
    lookup: &Lookup<'_>,
) -> Result<Option<Vec<u8>>, AllocError>
    ensures { IfOk result (λ address. option_map (λ text. text.items) address
        ≡ library_target site.now outcome lookup.now) }
{
    let cited = lookup.cited(b"");
    let links = library_links(alloc, site, LinkUse::Followed, outcome, &cited)?;
    first_address(alloc, &links)
}

// Returns the link of the library, or else that of the best hit.
fn closed_target(
    alloc: Global,
    site: &SiteFile,
    lookup: &Lookup<'_>,
    hits: &Tally<'_>,
) -> Result<Option<Vec<u8>>, AllocError>
    ensures { IfOk result (λ address. option_map (λ text. text.items) address
        ≡ closed_target site.now lookup.now (tally_from hits.now)) }
{
    match library_target(alloc, site, hits.outcome(), lookup)? {
        Some(link) => Ok(Some(link)),
        None => {
            let best = hits.best_link(alloc)?;
            owned(alloc, best)
        }
    }
}

/// Returns the link of the best open hit, or else that of the library, or else that of the best hit.
pub(crate) fn target_in(
    alloc: Global,
    site: &SiteFile,
    lookup: &Lookup<'_>,
    hits: &Tally<'_>,
) -> Result<Option<Vec<u8>>, AllocError>
    ensures { IfOk result (λ address. option_map (λ text. text.items) address
        ≡ target_in site.now lookup.now (tally_from hits.now)) }
{
    let best = hits.best_open_link(alloc)?;
    match owned(alloc, best)? {
        Some(link) => Ok(Some(link)),
        None => closed_target(alloc, site, lookup, hits),
    }
}

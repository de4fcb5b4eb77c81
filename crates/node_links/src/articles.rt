//! The links to articles, and to what a DOI names.
ghost use Rattle.std.specs.Prelude.{◌≡◌, ◌++◌, codes, IfOk, option_map};
ghost use Rattle.node_links.specs.Articles.{article_address, article_link, doi_link, template_link};
ghost use Rattle.node_links.specs.Requests.{if_link};
ghost use Rattle.node_site.specs.Proxies.{proxied, through};

use crate::cited::CitedTitle;
use crate::filling::{Filling, if_link};
use crate::site_links::SiteLinks;
use node_site::{Prefix, SiteFile, article_template, is_direct, may_be_link, through};
use std::alloc::{AllocError, Global};

/// Returns the link to an address behind a prefix, if that is safe.
pub(crate) fn safe_link(
    alloc: Global,
    prefix: &Option<Prefix<'_>>,
    address: &[u8],
) -> Result<Option<Vec<u8>>, AllocError>
    ensures { IfOk result (λ link. option_map (λ text. text.items) link
        ≡ if_link (through prefix.now address.now)) }
{
    if !may_be_link(prefix, address) {
        return Ok(None);
    }
    let link = through(alloc, prefix, address)?;
    Ok(if_link(link.into_owned(alloc)?))
}

// Returns the address of the cited article by a template, if the citation has every name of it.
fn address_of(
    alloc: Global,
    cited: &CitedTitle<'_>,
    template: &[u8],
) -> Result<Option<Vec<u8>>, AllocError>
    ensures { IfOk result (λ address. option_map (λ text. text.items) address
        ≡ article_address cited.now template.now) }
{
    let filling = Filling::of(alloc, cited, template)?;
    Ok(filling.address(cited.title_id))
}

// Returns the link to an address as a page has it, if that is safe.
#[tactic(auto, unfolding(node_site::specs::Proxies::proxied))]
fn page_link(
    alloc: Global,
    site: &SiteFile,
    address: &[u8],
    is_direct: bool,
) -> Result<Option<Vec<u8>>, AllocError>
    ensures { IfOk result (λ link. option_map (λ text. text.items) link
        ≡ if_link (proxied site.now address.now is_direct)) }
{
    let mut links = SiteLinks::new(site);
    let prefix = links.prefix_for(alloc, address, is_direct)?;
    safe_link(alloc, &prefix, address)
}

// Returns the link to the cited article by a template.
#[tactic(auto, unfolding(node_site::specs::Proxies::proxied))]
fn template_link(
    alloc: Global,
    site: &SiteFile,
    cited: &CitedTitle<'_>,
    is_direct: bool,
    template: &[u8],
) -> Result<Option<Vec<u8>>, AllocError>
    ensures { IfOk result (λ link. option_map (λ text. text.items) link
        ≡ template_link site.now cited.now is_direct template.now) }
{
    match address_of(alloc, cited, template)? {
        Some(address) => page_link(alloc, site, &address, is_direct),
        None => Ok(None),
    }
}

/// Returns the link to the cited article in a row of a package. It exists if the package, or else the platform of the
/// row's URL, has a template and the citation each name in it, and if it has at most 8,000 bytes. It goes through a
/// proxy as the link to the row does.
///
/// # Errors
///
/// Running out of memory.
#[tactic(auto, unfolding(crate::specs::Articles::article_link))]
pub fn article_link(
    alloc: Global,
    site: &SiteFile,
    id: &[u8],
    url: &[u8],
    is_free: bool,
    cited: &CitedTitle<'_>,
) -> Result<Option<Vec<u8>>, AllocError>
    ensures { IfOk result (λ link. option_map (λ text. text.items) link
        ≡ article_link site.now id.now url.now is_free cited.now) }
{
    let Some(template) = article_template(site, id, url) else {
        return Ok(None);
    };
    let is_direct = is_direct(site, id, is_free);
    template_link(alloc, site, cited, is_direct, template.as_bytes())
}

fn doi_address(alloc: Global, doi: &[u8]) -> Result<Vec<u8>, AllocError>
    ensures { IfOk result (λ address. address.items ≡ codes "https://doi.org/" ++ doi.now) }
{
    let mut address = Vec::from_slice(alloc, b"https://doi.org/")?;
    address.extend_from_slice(doi)?;
    Ok(address)
}

/// Returns the link to what a DOI names, if it is safe. It goes through a proxy as others do.
///
/// # Errors
///
/// Running out of memory.
#[tactic(auto, unfolding(crate::specs::Articles::doi_link))]
pub fn doi_link(alloc: Global, site: &SiteFile, doi: &[u8]) -> Result<Option<Vec<u8>>, AllocError>
    ensures { IfOk result (λ link. option_map (λ text. text.items) link ≡ doi_link site.now doi.now) }
{
    let address = doi_address(alloc, doi)?;
    page_link(alloc, site, &address, false)
}

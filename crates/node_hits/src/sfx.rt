//! Writes the reply of SFX to a query: its hits and the links of the library as targets, and the packages that may have
//! more hits.
ghost use Rattle.std.specs.Prelude.{◌≡◌, ◌++◌, OnOk, map};
ghost use Rattle.std.specs.List.{flat_map};
ghost use Rattle.node_links.specs.LibraryLinks.{library_links};
ghost use Rattle.node_site.specs.declared.occasion.LinkUse.TheVariants.{Shown};
ghost use Rattle.node_hits.specs.Sfx.{hit_service, is_asked, link_service, more_of, no_targets, service_of};
ghost use Rattle.node_hits.specs.Sfx.{sfx_reply};
ghost use Rattle.node_hits.specs.SfxTexts.{behind_text, end_text, hit_text, linked_text, start_text, way_text};
ghost use Rattle.node_hits.specs.SfxTexts.{ways_text};
ghost use Rattle.node_hits.specs.Tallying.{tally_from};

use crate::hits::ReleaseHit;
use crate::rank::is_abstracts;
use crate::ranked_hit::RankedHit;
use crate::sfx_more::put_more;
use crate::sfx_names::{
    ABSTRACT, CTX_OBJ, CTX_OBJ_ATTRIBUTES, CTX_OBJ_SET, CTX_OBJ_TARGETS, FULL_TEXT, WEB_SERVICE,
};
use crate::sfx_target::{Service, put_plain_target, put_row_target};
use crate::tally::Tally;
use feed_kbart::Row;
use feed_names::ReleaseName;
use feed_xml::{DECLARATION, put_closed, put_leaf, put_opened};
use node_links::{CitedTitle, LibraryLink, library_links};
use node_request::SfxOptions;
use node_response::put;
use node_site::{LinkUse, SearchOutcome, SiteFile, is_link, shown_package};
use std::alloc::AllocError;

fn service_of(row: &Row) -> &'static [u8]
    ensures { result.now ≡ service_of row.now }
{
    if is_abstracts(row) {
        ABSTRACT
    } else {
        FULL_TEXT
    }
}

fn hit_service<'s>(site: &'s SiteFile, found: &ReleaseHit<'s>, link: &'s [u8]) -> Service<'s>
    ensures { result ≡ hit_service site.now found.now link.now }
{
    Service {
        name: found.name().package(),
        public_name: shown_package(site, found.name().package()),
        number: found.row().number(),
        service_type: service_of(found.row()),
        url: link,
        note: found.note(),
    }
}

fn link_service<'a>(link: &'a LibraryLink<'_>) -> Service<'a>
    ensures { result ≡ link_service link.now }
{
    Service {
        name: link.label(),
        public_name: link.label(),
        number: 0,
        service_type: WEB_SERVICE,
        url: link.address(),
        note: b"",
    }
}

// Returns whether a hit is asked for: each is, unless full texts alone are.
fn is_asked(options: SfxOptions, found: &ReleaseHit<'_>) -> bool
    ensures { result ≡ is_asked options found.now }
{
    !options.full_texts_only || found.is_open()
}

// Writes the target of a hit with this link, if the link is safe.
#[tactic(auto, unfolding(crate::specs::SfxTexts::linked_text))]
fn put_linked(
    out: &mut Vec<u8>,
    options: SfxOptions,
    site: &SiteFile,
    found: &ReleaseHit<'_>,
    link: &[u8],
) -> Result<(), AllocError>
    ensures { OnOk result (out.new.items
        ≡ out.old.items ++ linked_text options site.now found.now link.now) }
{
    if !is_link(link) {
        return Ok(());
    }
    let service = hit_service(site, found, link);
    put_row_target(out, &service, options.is_detailed, found.row())
}

// Writes the target of a hit, if it is one.
#[tactic(auto, unfolding(crate::specs::SfxTexts::hit_text))]
fn put_hit(
    out: &mut Vec<u8>,
    options: SfxOptions,
    site: &SiteFile,
    found: &ReleaseHit<'_>,
) -> Result<(), AllocError>
    ensures { OnOk result (out.new.items ≡ out.old.items ++ hit_text options site.now found.now) }
{
    if !is_asked(options, found) {
        return Ok(());
    }
    let link = found.link(*out.allocator())?;
    put_linked(out, options, site, found, &link)
}

fn put_hits(
    out: &mut Vec<u8>,
    options: SfxOptions,
    site: &SiteFile,
    hits: &[RankedHit<'_>],
) -> Result<(), AllocError>
    ensures { OnOk result (out.new.items ≡ out.old.items ++ flat_map (hit_text options site.now) hits.now) }
{
    for found in hits {
        put_hit(out, options, site, found.hit())?;
    }
    Ok(())
}

#[tactic(auto, unfolding(crate::specs::SfxTexts::way_text))]
fn put_way(out: &mut Vec<u8>, link: &LibraryLink<'_>) -> Result<(), AllocError>
    ensures { OnOk result (out.new.items ≡ out.old.items ++ way_text link.now) }
{
    let service = link_service(link);
    put_plain_target(out, &service)
}

fn put_each_way(out: &mut Vec<u8>, links: &[LibraryLink<'_>]) -> Result<(), AllocError>
    ensures { OnOk result (out.new.items ≡ out.old.items ++ flat_map way_text links.now) }
{
    for link in links {
        put_way(out, link)?;
    }
    Ok(())
}

// Writes the targets of the links of a library, unless full texts alone are asked for.
fn put_ways(
    out: &mut Vec<u8>,
    options: SfxOptions,
    site: &SiteFile,
    outcome: SearchOutcome,
    cited: &CitedTitle<'_>,
) -> Result<(), AllocError>
    ensures { OnOk result (out.new.items
        ≡ out.old.items ++ ways_text options (library_links site.now Shown outcome cited.now)) }
{
    if options.full_texts_only {
        return Ok(());
    }
    let links = library_links(*out.allocator(), site, LinkUse::Shown, outcome, cited)?;
    put_each_way(out, &links)
}

#[tactic(auto, unfolding(crate::specs::SfxTexts::start_text))]
fn put_start(out: &mut Vec<u8>) -> Result<(), AllocError>
    ensures { OnOk result (out.new.items ≡ out.old.items ++ start_text) }
{
    put(out, DECLARATION)?;
    put_opened(out, CTX_OBJ_SET)?;
    put_opened(out, CTX_OBJ)?;
    put_leaf(out, CTX_OBJ_ATTRIBUTES, b"")?;
    put_opened(out, CTX_OBJ_TARGETS)
}

#[tactic(auto, unfolding(crate::specs::SfxTexts::end_text))]
fn put_end(out: &mut Vec<u8>) -> Result<(), AllocError>
    ensures { OnOk result (out.new.items ≡ out.old.items ++ end_text) }
{
    put_closed(out, CTX_OBJ)?;
    put_closed(out, CTX_OBJ_SET)?;
    put(out, b"\n")
}

// Writes what is behind the targets.
#[tactic(auto, unfolding(crate::specs::SfxTexts::behind_text))]
fn put_behind(out: &mut Vec<u8>, site: &SiteFile, names: &[&ReleaseName]) -> Result<(), AllocError>
    ensures { OnOk result (out.new.items
        ≡ out.old.items ++ behind_text (more_of site.now (map (λ name. name.now) names.now))) }
{
    put_closed(out, CTX_OBJ_TARGETS)?;
    put_more(out, site, names)?;
    put_end(out)
}

/// Writes the reply of SFX for the hits that a tally shows, for the links of the library to what is cited, and for the
/// packages that may have more hits.
///
/// # Errors
///
/// Running out of memory.
pub fn put_sfx(
    out: &mut Vec<u8>,
    options: SfxOptions,
    site: &SiteFile,
    tally: &Tally<'_>,
    cited: &CitedTitle<'_>,
) -> Result<(), AllocError>
    ensures { OnOk result (out.new.items
        ≡ out.old.items ++ sfx_reply options site.now (tally_from tally.now) cited.now) }
{
    put_start(out)?;
    put_hits(out, options, site, tally.top())?;
    put_ways(out, options, site, tally.outcome(), cited)?;
    put_behind(out, site, tally.partial())
}

/// Writes the reply without a target.
///
/// # Errors
///
/// Running out of memory.
pub fn put_no_targets(out: &mut Vec<u8>) -> Result<(), AllocError>
    ensures { OnOk result (out.new.items ≡ out.old.items ++ no_targets) }
{
    put_start(out)?;
    put_closed(out, CTX_OBJ_TARGETS)?;
    put_end(out)
}

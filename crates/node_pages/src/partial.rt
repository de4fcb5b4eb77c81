//! The packages that may have more hits, as a page names them.
ghost use Rattle.std.specs.Prelude.{◌≡◌, ◌++◌, IfOk, OnOk, map};
ghost use Rattle.node_site.specs.Packages.{shown_package};
ghost use Rattle.node_pages.specs.Partial.{names_from, partial_names, separator, unnamed};

use feed_bytes::put_all;
use feed_names::ReleaseName;
use node_hits::NAMED_LIMIT;
use node_response::{Fragment, put};
use node_site::{SiteFile, shown_package};
use std::alloc::{AllocError, Global};

fn separator(place: usize) -> &'static [u8]
    ensures { result.now ≡ separator place }
{
    if place == 0 { b"" } else { b", " }
}

// Writes the name of a package at this place of a list.
fn put_name(
    out: &mut Vec<u8>,
    site: &SiteFile,
    place: usize,
    name: &ReleaseName,
) -> Result<(), AllocError>
    ensures { OnOk result (out.new.items
        ≡ out.old.items ++ (separator place ++ shown_package site.now name.now.package_name)) }
{
    put(out, separator(place))?;
    put(out, shown_package(site, name.package()))
}

fn put_names(out: &mut Vec<u8>, site: &SiteFile, names: &[&ReleaseName]) -> Result<(), AllocError>
    ensures { OnOk result (out.new.items
        ≡ out.old.items ++ names_from site.now 0 (map (λ name. name.now) names.now)) }
{
    for (place, name) in names.iter().enumerate() {
        put_name(out, site, place, name)?;
    }
    Ok(())
}

// Writes how many packages are not named, if any are.
fn put_unnamed(out: &mut Vec<u8>, count: usize) -> Result<(), AllocError>
    ensures { OnOk result (out.new.items ≡ out.old.items ++ unnamed count) }
{
    if count == 0 {
        return Ok(());
    }
    put_all(
        out,
        &[
            Fragment::Plain(b" (+"),
            Fragment::Number(count as u64),
            Fragment::Plain(b")"),
        ],
    )
}

/// Returns the first packages that may have more hits, by the names that readers see, and how many others may.
///
/// # Errors
///
/// Running out of memory.
#[tactic(auto, unfolding(crate::specs::Partial::partial_names))]
pub(crate) fn partial_names(
    alloc: Global,
    site: &SiteFile,
    names: &[&ReleaseName],
) -> Result<Vec<u8>, AllocError>
    ensures { IfOk result (λ text. text.items ≡ partial_names site.now (map (λ name. name.now) names.now)) }
{
    let mut text = Vec::new(alloc);
    put_names(&mut text, site, &names[..names.len().min(NAMED_LIMIT)])?;
    put_unnamed(&mut text, names.len().saturating_sub(NAMED_LIMIT))?;
    Ok(text)
}

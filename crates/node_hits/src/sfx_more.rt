//! Writes the packages that may have more hits, as the reply of SFX names them.
ghost use Rattle.std.specs.Prelude.{◌≡◌, ◌++◌, OnOk, map};
ghost use Rattle.std.specs.List.{flat_map};
ghost use Rattle.feed_xml.specs.Marks.{xml_text};
ghost use Rattle.node_hits.specs.Sfx.{more_marks, more_of, named_marks, others_marks};
ghost use Rattle.node_hits.specs.SfxTexts.{package_text};

use crate::sfx_names::{MORE_IN, OTHERS, PACKAGE};
use crate::shown::NAMED_LIMIT;
use feed_names::ReleaseName;
use feed_xml::{put_closed, put_leaf, put_number_leaf, put_opened};
use node_site::{SiteFile, shown_package};
use std::alloc::AllocError;

fn put_package(out: &mut Vec<u8>, site: &SiteFile, name: &ReleaseName) -> Result<(), AllocError>
    ensures { OnOk result (out.new.items ≡ out.old.items ++ package_text site.now name.now) }
{
    put_leaf(out, PACKAGE, shown_package(site, name.package()))
}

fn put_packages(
    out: &mut Vec<u8>,
    site: &SiteFile,
    names: &[&ReleaseName],
) -> Result<(), AllocError>
    ensures { OnOk result (out.new.items
        ≡ out.old.items ++ flat_map (λ name. package_text site.now name.now) names.now) }
{
    for name in names {
        put_package(out, site, name)?;
    }
    Ok(())
}

// Writes how many packages are not named, if any are.
fn put_others(out: &mut Vec<u8>, count: usize) -> Result<(), AllocError>
    ensures { OnOk result (out.new.items ≡ out.old.items ++ xml_text (others_marks count)) }
{
    if count == 0 {
        return Ok(());
    }
    put_number_leaf(out, OTHERS, count as u64)
}

// Writes the first packages, and how many others there are.
fn put_named(out: &mut Vec<u8>, site: &SiteFile, names: &[&ReleaseName]) -> Result<(), AllocError>
    ensures { OnOk result (out.new.items
        ≡ out.old.items ++ xml_text (named_marks (more_of site.now (map (λ name. name.now) names.now)))) }
{
    put_packages(out, site, &names[..names.len().min(NAMED_LIMIT)])?;
    put_others(out, names.len().saturating_sub(NAMED_LIMIT))
}

/// Writes the first packages that may have more hits, and how many others may, if there are any.
///
/// # Errors
///
/// Running out of memory.
pub(crate) fn put_more(
    out: &mut Vec<u8>,
    site: &SiteFile,
    names: &[&ReleaseName],
) -> Result<(), AllocError>
    ensures { OnOk result (out.new.items
        ≡ out.old.items ++ xml_text (more_marks (more_of site.now (map (λ name. name.now) names.now)))) }
{
    if names.is_empty() {
        return Ok(());
    }
    put_opened(out, MORE_IN)?;
    put_named(out, site, names)?;
    put_closed(out, MORE_IN)
}

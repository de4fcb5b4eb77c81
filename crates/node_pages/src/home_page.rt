//! Writes the home page and the page of `/status`: the forms, and the packages of a node.
ghost use Rattle.std.specs.Prelude.{◌≡◌, ◌++◌, IfOk, OnOk, length};
ghost use Rattle.node_templates.specs.Pages.{page_text};
ghost use Rattle.node_request.specs.declared.representation.Representation.TheVariants as representation;
ghost use Rattle.node_response.specs.Responses.{response_with};
ghost use Rattle.node_response.specs.declared.status.Status.TheVariants as status;
ghost use Rattle.node_pages.specs.HomePage.{form_page, has_rows, home_page, listed, package_parts, packages};
ghost use Rattle.node_pages.specs.HomePage.{packages_end, packages_left, packages_parts, status_page};
ghost use Rattle.std.specs.List.{list_any};

use crate::hits_page::digits_of;
use crate::lists::list_mark;
use feed_releases::ActiveRelease;
use node_request::Representation;
use node_response::{Response, Status};
use node_site::{SiteFile, Text, shown_package, text_of};
use node_templates::{Slot, Template, put_page};
use std::alloc::{AllocError, Global};

const FORM_PAGE: [Template; 4] = [
    Template::Top,
    Template::SearchForm,
    Template::TitlesForm,
    Template::Foot,
];

const HOME_START: [Template; 4] = [
    Template::Top,
    Template::SearchForm,
    Template::TitlesForm,
    Template::Packages,
];

const HOME_END: [Template; 2] = [Template::PackagesEnd, Template::Foot];

/// The most packages on the home page.
const HOME_LIMIT: usize = 200;

/// Returns the response with the forms alone.
#[tactic(auto, unfolding(crate::specs::HomePage::form_page))]
pub(crate) fn form_response(alloc: Global, site: &SiteFile) -> Result<Response, AllocError>
    ensures { IfOk result (λ reply. reply
        ≡ response_with status.Good representation.Html (form_page site.now)) }
{
    let mut body = Vec::new(alloc);
    let heading = text_of(site, Text::FindHoldings);
    put_page(&mut body, site, &FORM_PAGE, &[(Slot::Heading, heading)])?;
    Ok(Response::new(Status::Good, Representation::Html, body))
}

#[tactic(auto, unfolding(crate::specs::HomePage::package_parts))]
fn put_package(
    out: &mut Vec<u8>,
    site: &SiteFile,
    active: &ActiveRelease<'_>,
) -> Result<(), AllocError>
    ensures { OnOk result (out.new.items
        ≡ out.old.items ++ page_text site.now (package_parts site.now active.now)) }
{
    put_page(
        out,
        site,
        &[Template::Package],
        &[(Slot::Package, shown_package(site, active.name().package()))],
    )
}

fn has_rows(active: &ActiveRelease<'_>) -> bool
    ensures { result ≡ has_rows active.now }
{
    !active.holdings().rows().is_empty()
}

// Writes the first packages whose lists have rows, at most so many, and returns how many there are.
#[tactic(auto, unfolding(node_templates::specs::Pages::page_text))]
fn put_packages(
    out: &mut Vec<u8>,
    site: &SiteFile,
    actives: &[ActiveRelease<'_>],
    most: usize,
) -> Result<usize, AllocError>
    ensures written { OnOk result (out.new.items
        ≡ out.old.items ++ page_text site.now (packages site.now most actives.now)) }
    ensures counted { IfOk result (λ count. count ≡ length (listed actives.now)) }
{
    let mut count = 0;
    for active in actives {
        if has_rows(active) {
            if count < most {
                put_package(out, site, active)?;
            }
            count += 1;
        }
    }
    Ok(count)
}

fn is_any_listed(actives: &[ActiveRelease<'_>]) -> bool
    ensures { result ≡ list_any has_rows actives.now }
{
    actives.iter().any(|active| has_rows(active))
}

fn packages_left(most: usize, count: usize) -> Option<usize>
    ensures { result ≡ packages_left most count }
{
    if most < count {
        Some(count - most)
    } else {
        None
    }
}

// Writes the end of the list, and how many packages are left out.
#[tactic(auto, unfolding(crate::specs::HomePage::packages_end))]
fn put_packages_end(
    out: &mut Vec<u8>,
    site: &SiteFile,
    mark: &[u8],
    left: Option<usize>,
) -> Result<(), AllocError>
    ensures { OnOk result (out.new.items
        ≡ out.old.items ++ page_text site.now (packages_end mark.now left)) }
{
    let digits = digits_of(*out.allocator(), left)?;
    put_page(
        out,
        site,
        &HOME_END,
        &[(Slot::Listed, mark), (Slot::LeftOut, &digits)],
    )
}

// Writes the forms and at most so many packages.
#[tactic(auto, unfolding(node_templates::specs::Pages::page_text))]
fn put_packages_page(
    out: &mut Vec<u8>,
    site: &SiteFile,
    actives: &[ActiveRelease<'_>],
    most: usize,
) -> Result<(), AllocError>
    ensures { OnOk result (out.new.items
        ≡ out.old.items ++ page_text site.now (packages_parts site.now most actives.now)) }
{
    let heading = text_of(site, Text::FindHoldings);
    let mark = list_mark(!is_any_listed(actives));
    put_page(
        out,
        site,
        &HOME_START,
        &[(Slot::Heading, heading), (Slot::Listed, mark)],
    )?;
    let count = put_packages(out, site, actives, most)?;
    put_packages_end(out, site, mark, packages_left(most, count))
}

/// Writes the home page: the forms and the first 200 packages whose lists have rows. If there are more, it has their
/// number as a link to the page of all.
///
/// # Errors
///
/// Running out of memory.
#[tactic(auto, unfolding(crate::specs::HomePage::home_page))]
pub fn put_home_page(
    out: &mut Vec<u8>,
    site: &SiteFile,
    actives: &[ActiveRelease<'_>],
) -> Result<(), AllocError>
    ensures { OnOk result (out.new.items ≡ out.old.items ++ home_page site.now actives.now) }
{
    put_packages_page(out, site, actives, HOME_LIMIT)
}

/// Writes the page of `/status`: the forms, and all packages whose lists have rows.
///
/// # Errors
///
/// Running out of memory.
#[tactic(auto, unfolding(crate::specs::HomePage::status_page))]
pub fn put_status_page(
    out: &mut Vec<u8>,
    site: &SiteFile,
    actives: &[ActiveRelease<'_>],
) -> Result<(), AllocError>
    ensures { OnOk result (out.new.items ≡ out.old.items ++ status_page site.now actives.now) }
{
    put_packages_page(out, site, actives, actives.len())
}

//! The names of packages, and their order.
ghost use Rattle.std.specs.Prelude.{◌≡◌, List, ℕ, Some, None, IfOk, OnOk, option_copied, option_map};
ghost use Rattle.std.specs.Option.{option_or};
ghost use Rattle.toml.specs.Data.{as_table};
ghost use Rattle.toml.specs.View.{array_view, view};
ghost use Rattle.node_site.specs.Held.{is_package};
ghost use Rattle.node_site.specs.Indexes.{ArePackages, place_at, place_or};
ghost use Rattle.node_site.specs.Packages.{name_for_readers, package_place, shown_package};
ghost use Rattle.node_site.specs.Site.{package_of};

use crate::lookup::{text_at, text_or_empty};
use crate::places::Places;
use crate::site_file::SiteFile;
use std::alloc::{AllocError, Global};
use toml::Value;
use toml::value::Array;

// Gives the package of a row a place, unless it has one.
fn put_package(
    alloc: Global,
    places: &mut Places,
    row: &Value,
    place: usize,
) -> Result<(), AllocError>
    ensures { OnOk result ((id : List ℕ) → place_at id places.new ≡ option_or (place_at id places.old)
        (place_or package_of (is_package id) place (as_table (view row.now)) None)) }
{
    match row.as_table() {
        Some(table) => places.put(alloc, text_or_empty("id", table), place),
        None => Ok(()),
    }
}

fn places_of(alloc: Global, rows: &Array) -> Result<Places, AllocError>
    ensures { IfOk result (ArePackages (Some (array_view rows.now))) }
{
    let mut places = Places::new(alloc);
    for index in 0..rows.len() {
        put_package(alloc, &mut places, &rows[index], index)?;
    }
    Ok(places)
}

/// Returns the place of the first table about each package.
pub(crate) fn package_places(alloc: Global, rows: Option<&Array>) -> Result<Places, AllocError>
    ensures { IfOk result (ArePackages (option_map (λ v. array_view v.now) rows.entry)) }
{
    match rows {
        Some(rows) => places_of(alloc, rows),
        None => Ok(Places::new(alloc)),
    }
}

/// Returns the name that the site file gives a package, by the first table about it.
pub fn name_for_readers<'a>(site: &'a SiteFile, id: &[u8]) -> Option<&'a str>
    ensures { option_copied result ≡ name_for_readers site.now id.now }
{
    match site.package_table(id) {
        Some(table) => text_at("name", table),
        None => None,
    }
}

/// Returns the name of a package that readers see: that of the site file, or else the package as releases name it.
pub fn shown_package<'a>(site: &'a SiteFile, id: &'a [u8]) -> &'a [u8]
    ensures { result.now ≡ shown_package site.now id.now }
{
    match name_for_readers(site, id) {
        Some(name) => name.as_bytes(),
        None => id,
    }
}

/// Returns the place of a package in the order of the site file: that of the first table about it. A package without a
/// table comes behind all those that have one.
pub fn package_place(site: &SiteFile, id: &[u8]) -> usize
    ensures { result ≡ package_place site.now id.now }
{
    site.package_place(id)
}

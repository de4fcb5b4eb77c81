//! Places of the tables of titles, by the package and the title.
ghost use Rattle.std.specs.Prelude.{◌≡◌, List, ℕ, Some, None, IfOk, OnOk, option_map};
ghost use Rattle.std.specs.Option.{option_and_then, option_or};
ghost use Rattle.toml.specs.Data.{as_table};
ghost use Rattle.toml.specs.View.{array_view, view};
ghost use Rattle.node_site.specs.Held.{is_title};
ghost use Rattle.node_site.specs.Indexes.{AddsTitle, AreTitles, place_at, place_or, title_at};
ghost use Rattle.node_site.specs.Site.{title_of};

use crate::lookup::text_or_empty;
use crate::places::Places;
use std::alloc::{AllocError, Global};
use std::collections::BTreeMap;
use toml::Value;
use toml::value::Array;

/// A place for each title of each package: that of the first table about it.
#[derive(Drop)]
pub(crate) struct TitlePlaces {
    pub(crate) packages: BTreeMap<Vec<u8>, Places>,
}

// Returns the places of a package's titles, or no places.
fn or_none(alloc: Global, titles: Option<Places>) -> Places
    ensures { (id : List ℕ) → place_at id result ≡ option_and_then (place_at id) titles }
{
    match titles {
        Some(titles) => titles,
        None => Places::new(alloc),
    }
}

impl TitlePlaces {
    pub(crate) fn new(alloc: Global) -> TitlePlaces
        ensures { (package_id id : List ℕ) → title_at package_id id result ≡ None }
    {
        TitlePlaces {
            packages: BTreeMap::new(alloc),
        }
    }

    /// Returns the place of a title of a package.
    pub(crate) fn get(&self, package_id: &[u8], id: &[u8]) -> Option<usize>
        ensures { result ≡ title_at package_id.now id.now self.now }
    {
        match self.packages.get(package_id) {
            Some(titles) => titles.get(id),
            None => None,
        }
    }

    /// Gives a title of a package a place, unless it has one.
    pub(crate) fn put(
        &mut self,
        alloc: Global,
        package_id: &[u8],
        id: &[u8],
        place: usize,
    ) -> Result<(), AllocError>
        ensures { OnOk result (AddsTitle self.old package_id.now id.now place self.new) }
    {
        let mut titles = or_none(alloc, self.packages.remove(package_id));
        titles.put(alloc, id, place)?;
        self.packages
            .insert(Vec::from_slice(alloc, package_id)?, titles)?;
        Ok(())
    }
}

// Gives the title of a row a place, unless it has one.
fn put_title(
    alloc: Global,
    places: &mut TitlePlaces,
    row: &Value,
    place: usize,
) -> Result<(), AllocError>
    ensures { OnOk result ((package_id id : List ℕ) → title_at package_id id places.new
        ≡ option_or (title_at package_id id places.old)
        (place_or title_of (is_title package_id id) place (as_table (view row.now)) None)) }
{
    match row.as_table() {
        Some(table) => {
            let package_id = text_or_empty("package", table);
            places.put(alloc, package_id, text_or_empty("id", table), place)
        }
        None => Ok(()),
    }
}

fn places_of(alloc: Global, rows: &Array) -> Result<TitlePlaces, AllocError>
    ensures { IfOk result (AreTitles (Some (array_view rows.now))) }
{
    let mut places = TitlePlaces::new(alloc);
    for index in 0..rows.len() {
        put_title(alloc, &mut places, &rows[index], index)?;
    }
    Ok(places)
}

/// Returns the place of the first table about each title.
pub(crate) fn title_places(alloc: Global, rows: Option<&Array>) -> Result<TitlePlaces, AllocError>
    ensures { IfOk result (AreTitles (option_map (λ v. array_view v.now) rows.entry)) }
{
    match rows {
        Some(rows) => places_of(alloc, rows),
        None => Ok(TitlePlaces::new(alloc)),
    }
}

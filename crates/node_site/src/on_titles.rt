//! Places of the tables that switch a title on, by the package.
ghost use Rattle.std.specs.Prelude.{◌≡◌, List, ℕ, Some, None, IfOk, OnOk, option_map};
ghost use Rattle.std.specs.Option.{option_or};
ghost use Rattle.toml.specs.Data.{as_table};
ghost use Rattle.toml.specs.View.{array_view, view};
ghost use Rattle.node_site.specs.Held.{is_on_title};
ghost use Rattle.node_site.specs.Indexes.{AreOnTitles, place_at, place_or};
ghost use Rattle.node_site.specs.Site.{title_of};

use crate::lookup::{switch_at, text_or_empty};
use crate::places::Places;
use std::alloc::{AllocError, Global};
use toml::Value;
use toml::value::Array;

// Gives the package of a row a place if the row switches a title on, unless the package has one.
fn put_on_title(
    alloc: Global,
    places: &mut Places,
    row: &Value,
    place: usize,
) -> Result<(), AllocError>
    ensures { OnOk result ((id : List ℕ) → place_at id places.new ≡ option_or (place_at id places.old)
        (place_or title_of (is_on_title id) place (as_table (view row.now)) None)) }
{
    match row.as_table() {
        Some(table) => {
            if switch_at("held", table).unwrap_or(true) {
                places.put(alloc, text_or_empty("package", table), place)
            } else {
                Ok(())
            }
        }
        None => Ok(()),
    }
}

fn places_of(alloc: Global, rows: &Array) -> Result<Places, AllocError>
    ensures { IfOk result (AreOnTitles (Some (array_view rows.now))) }
{
    let mut places = Places::new(alloc);
    for index in 0..rows.len() {
        put_on_title(alloc, &mut places, &rows[index], index)?;
    }
    Ok(places)
}

/// Returns the place of the first table that switches a title of each package on.
pub(crate) fn on_title_places(alloc: Global, rows: Option<&Array>) -> Result<Places, AllocError>
    ensures { IfOk result (AreOnTitles (option_map (λ v. array_view v.now) rows.entry)) }
{
    match rows {
        Some(rows) => places_of(alloc, rows),
        None => Ok(Places::new(alloc)),
    }
}

//! The places of the tables of platforms, by their hosts.
ghost use Rattle.std.specs.Prelude.{◌≡◌, List, ℕ, None, Some, IfOk, OnOk, if◌then◌else◌, length, nat_le, option_map};
ghost use Rattle.std.specs.Option.{option_or};
ghost use Rattle.std.specs.Str.{str_to_ascii_lowercase};
ghost use Rattle.toml.specs.Data.{as_table};
ghost use Rattle.toml.specs.View.{array_view, view};
ghost use Rattle.node_site.specs.Indexes.{ArePlatforms, place_at, place_or};
ghost use Rattle.node_site.specs.Platforms.{is_platform};
ghost use Rattle.node_site.specs.Site.{platform_of};

use crate::domains::put_domain;
use crate::lookup::text_or_empty;
use crate::places::Places;
use crate::urls::HOST_LIMIT;
use std::alloc::{AllocError, Global};
use toml::Value;
use toml::value::Array;

// Gives the host of a row a place, unless it has one.
fn put_platform(
    alloc: Global,
    places: &mut Places,
    row: &Value,
    place: usize,
) -> Result<(), AllocError>
    ensures { OnOk result ((host : List ℕ) → place_at (str_to_ascii_lowercase host) places.new
        ≡ option_or (place_at (str_to_ascii_lowercase host) places.old)
        (place_or platform_of (is_platform host) place (as_table (view row.now)) None)) }
{
    match row.as_table() {
        Some(table) => put_domain(alloc, places, text_or_empty("host", table), place),
        None => Ok(()),
    }
}

fn places_of(alloc: Global, rows: &Array) -> Result<Places, AllocError>
    ensures { IfOk result (ArePlatforms (Some (array_view rows.now))) }
{
    let mut places = Places::new(alloc);
    for index in 0..rows.len() {
        put_platform(alloc, &mut places, &rows[index], index)?;
    }
    Ok(places)
}

/// Returns the place of the table about each host.
pub(crate) fn platform_places(alloc: Global, rows: Option<&Array>) -> Result<Places, AllocError>
    ensures { IfOk result (ArePlatforms (option_map (λ v. array_view v.now) rows.entry)) }
{
    match rows {
        Some(rows) => places_of(alloc, rows),
        None => Ok(Places::new(alloc)),
    }
}

/// Returns the place of a host, in any case of letters.
pub(crate) fn place_of_host(places: &Places, host: &[u8]) -> Option<usize>
    ensures { result ≡ (if nat_le (length host.now) 253
        then place_at (str_to_ascii_lowercase host.now) places.now else None) }
{
    if host.len() > HOST_LIMIT {
        return None;
    }
    let mut buffer = [0; HOST_LIMIT];
    let lower = &mut buffer[..host.len()];
    lower.copy_from_slice(host);
    lower.make_ascii_lowercase();
    places.get(&*lower)
}

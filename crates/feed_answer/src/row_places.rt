//! The places of the rows that have a query's identifiers.
ghost use Rattle.std.specs.Prelude.{◌≡◌, ℕ, IfOk};
ghost use Rattle.std.specs.List.{Contains};
ghost use Rattle.std.specs.List.Sorted.{IsStrictlyIncreasing};
ghost use Rattle.feed_answer.specs.Places.{listed, places_among};

use crate::query::Query;
use feed_kbart::Holdings;
use std::alloc::{AllocError, Global};

/// Places of rows, ascending and each once.
#[derive(Drop)]
pub enum RowPlaces<'a> {
    /// Those of one identifier, as they are in the index.
    Indexed(&'a [u32]),
    /// Those of several identifiers.
    Merged(Vec<u32>),
}

// The places of the rows that have one of the identifiers of a query, in one list.
fn merge_places(alloc: Global, holdings: &Holdings, query: &Query) -> Result<Vec<u32>, AllocError>
    ensures ascending { IfOk result (λ places. IsStrictlyIncreasing places.items) }
    ensures whole { IfOk result (λ places. (place : ℕ) → Contains (places_among query.now holdings.now.rows) place
        → Contains places.items place) }
{
    let mut places = Vec::new(alloc);
    for place in 0..query.count() {
        if let Some(identifier) = query.identifier(place) {
            places.extend_from_slice(holdings.with_identifier(&identifier))?;
        }
    }
    places.sort_unstable();
    places.dedup();
    Ok(places)
}

impl<'a> RowPlaces<'a> {
    /// Returns the places.
    pub fn as_slice(&self) -> &[u32]
        ensures { result.now ≡ listed self.now }
    {
        match self {
            RowPlaces::Indexed(places) => places,
            RowPlaces::Merged(places) => places,
        }
    }
}

/// Returns the places of the rows that have one of the identifiers of a query. Those of one identifier are a part of
/// the index, and take no memory.
pub fn places_of<'a>(
    alloc: Global,
    holdings: &'a Holdings,
    query: &Query,
) -> Result<RowPlaces<'a>, AllocError>
    ensures ascending { IfOk result (λ places. IsStrictlyIncreasing (listed places)) }
    ensures whole { IfOk result (λ places. (place : ℕ) → Contains (places_among query.now holdings.now.rows) place
        → Contains (listed places) place) }
{
    match query.sole_identifier() {
        Some(identifier) => Ok(RowPlaces::Indexed(holdings.with_identifier(&identifier))),
        None => Ok(RowPlaces::Merged(merge_places(alloc, holdings, query)?)),
    }
}

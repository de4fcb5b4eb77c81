//! The places of the first rows that have one of the identifiers of a query.
ghost use Rattle.std.specs.Prelude.{◌≡◌, ◌<◌, ◌≤◌, [], All, IfOk, length, min, option_map, take};
ghost use Rattle.std.specs.Bool.{OnTrue};
ghost use Rattle.std.specs.List.{cons_option, slice_get};
ghost use Rattle.feed_answer.specs.Places.{listed};
ghost use Rattle.feed_answer.specs.QueryValue.{asked};
ghost use Rattle.node_hits.specs.Looks.{asked_places, open_places};
ghost use Rattle.node_hits.specs.Merging.{merged, next_place, with_each};

use crate::hits::LibraryRelease;
use feed_answer::{Query, RowPlaces};
use feed_kbart::Holdings;
use node_site::may_hold;
use std::alloc::{AllocError, Global};

/// Returns the first of some places.
pub(crate) fn front(places: &[u32], limit: usize) -> &[u32]
    ensures { result.now ≡ take limit places.now }
{
    &places[..places.len().min(limit)]
}

// Returns the least place of two ascending lists, and what is left of each.
fn next_place<'a>(one: &'a [u32], other: &'a [u32]) -> Option<(u32, &'a [u32], &'a [u32])>
    ensures { option_map (λ next. (next.0, next.1.now, next.2.now)) result ≡ next_place one.now other.now }
{
    match (one.split_first(), other.split_first()) {
        (None, None) => None,
        (Some((first, rest)), None) => Some((*first, rest, other)),
        (None, Some((second, more))) => Some((*second, one, more)),
        (Some((first, rest)), Some((second, more))) => {
            if *first < *second {
                Some((*first, rest, other))
            } else if *first == *second {
                Some((*first, rest, more))
            } else {
                Some((*second, one, more))
            }
        }
    }
}

// Returns whether so many places at the front are all less than another.
fn are_before(places: &[u32], limit: usize, other: u32) -> bool
    ensures long { OnTrue result (limit ≤ length places.now) }
    ensures less { OnTrue result (All (λ place. place < other) (take limit places.now)) }
{
    limit <= places.len() && places[..limit].iter().all(|place| *place < other)
}

// Returns the first places of two ascending lists, each once. Takes no memory if these are the first list's.
fn merge_places(
    alloc: Global,
    one: Vec<u32>,
    other: &[u32],
    limit: usize,
) -> Result<Vec<u32>, AllocError>
    ensures { IfOk result (λ places. places.items ≡ merged limit one.items other.now) }
{
    let mut first = one;
    if other.is_empty() || are_before(&first, limit, other[0]) {
        first.truncate(limit);
        return Ok(first);
    }
    let most = first.len().saturating_add(other.len()).min(limit);
    let mut places = Vec::with_capacity(alloc, most)?;
    let mut left = first.as_slice();
    let mut right = other;
    while places.len() < limit {
        match next_place(left, right) {
            Some((place, rest, more)) => {
                places.push(place)?;
                left = rest;
                right = more;
            }
            None => return Ok(places),
        }
    }
    Ok(places)
}

// Returns some places with those of the rows that have the identifier at a place of a query: the first ones.
fn with_one(
    alloc: Global,
    all: Vec<u32>,
    holdings: &Holdings,
    query: &Query,
    place: usize,
    limit: usize,
) -> Result<Vec<u32>, AllocError>
    ensures { IfOk result (λ more. more.items
        ≡ with_each limit holdings.now.rows all.items (cons_option (slice_get (asked query.now) place) [])) }
{
    match query.identifier(place) {
        Some(identifier) => {
            merge_places(alloc, all, holdings.with_identifier(&identifier), limit)
        }
        None => Ok(all),
    }
}

// Returns the places of the first rows that have one of the identifiers of a query, in one list.
fn with_each(
    alloc: Global,
    holdings: &Holdings,
    query: &Query,
    limit: usize,
) -> Result<Vec<u32>, AllocError>
    ensures { IfOk result (λ all. all.items ≡ with_each limit holdings.now.rows [] (asked query.now)) }
{
    let mut all = Vec::new(alloc);
    for place in 0..query.count() {
        all = with_one(alloc, all, holdings, query, place, limit)?;
    }
    Ok(all)
}

// Returns how many rows have one of the identifiers of a query, up to a limit. Looks up no more identifiers once there
// are so many.
fn count_each(
    alloc: Global,
    holdings: &Holdings,
    query: &Query,
    limit: usize,
) -> Result<usize, AllocError>
    ensures { IfOk result (λ count. count ≡ min limit (length (asked_places query.now holdings.now.rows))) }
{
    let mut all = Vec::new(alloc);
    for place in 0..query.count() {
        if all.len() >= limit {
            return Ok(limit);
        }
        all = with_one(alloc, all, holdings, query, place, limit)?;
    }
    Ok(all.len())
}

/// Returns how many rows have one of the identifiers of a query, up to a limit.
pub(crate) fn place_count(
    alloc: Global,
    holdings: &Holdings,
    query: &Query,
    limit: usize,
) -> Result<usize, AllocError>
    ensures { IfOk result (λ count. count ≡ min limit (length (asked_places query.now holdings.now.rows))) }
{
    match query.sole_identifier() {
        Some(one) => Ok(holdings.with_identifier(&one).len().min(limit)),
        None => count_each(alloc, holdings, query, limit),
    }
}

// Returns the places of the first rows that have one of the identifiers of a query. Those of one identifier are a part
// of the index, and take no memory.
fn first_places<'a>(
    alloc: Global,
    holdings: &'a Holdings,
    query: &Query,
    limit: usize,
) -> Result<RowPlaces<'a>, AllocError>
    ensures { IfOk result (λ places. listed places ≡ take limit (asked_places query.now holdings.now.rows)) }
{
    match query.sole_identifier() {
        Some(one) => Ok(RowPlaces::Indexed(front(holdings.with_identifier(&one), limit))),
        None => Ok(RowPlaces::Merged(with_each(alloc, holdings, query, limit)?)),
    }
}

/// Returns the places of the first rows of a release that have one of the identifiers of a query. There are none if the
/// library has nothing of the package.
pub(crate) fn open_places<'a>(
    alloc: Global,
    release: &LibraryRelease<'a>,
    query: &Query,
    limit: usize,
) -> Result<RowPlaces<'a>, AllocError>
    ensures { IfOk result (λ places. listed places
        ≡ take limit (open_places release.now.site.now release.now.name.now query.now
        release.now.holdings.now.rows)) }
{
    let places = first_places(alloc, release.holdings, query, limit)?;
    if places.as_slice().is_empty() || may_hold(release.site, release.name.package()) {
        Ok(places)
    } else {
        Ok(RowPlaces::Indexed(&[]))
    }
}

//! Finds the rows of a holdings list that match a query, by the list's index.
ghost use Rattle.std.specs.Prelude.{◌≡◌, IfOk, option_map};
ghost use Rattle.std.specs.List.{filter_map};
ghost use Rattle.feed_answer.specs.Answers.{answer_of};
ghost use Rattle.feed_answer.specs.HitValue.{hit_of};
ghost use Rattle.feed_answer.specs.Places.{hit_at};

use crate::grade::grade_of;
use crate::hits::{Answer, Hit};
use crate::query::Query;
use crate::row_places::places_of;
use feed_kbart::{Holdings, Row};
use std::alloc::{AllocError, Global};

/// Returns the row at a place with its grade, if the row exists and matches.
pub fn hit_at<'a>(rows: &'a [Row], place: u32, query: &Query) -> Option<Hit<'a>>
    ensures { option_map hit_of result ≡ hit_at query.now rows.now place }
{
    let row = rows.get(place as usize)?;
    let grade = grade_of(row, query)?;
    Some(Hit { row, grade })
}

// The rows at these places that match a query, in the order of the places.
fn hits_at<'a>(
    alloc: Global,
    rows: &'a [Row],
    places: &[u32],
    query: &Query,
) -> Result<Answer<'a>, AllocError>
    ensures { IfOk result (λ answer. answer ≡ filter_map (hit_at query.now rows.now) places.now) }
{
    let mut hits = Vec::new(alloc);
    for place in places {
        if let Some(hit) = hit_at(rows, *place, query) {
            hits.push(hit)?;
        }
    }
    Ok(Answer { hits })
}

/// Returns the rows of a holdings list that match a query, each with its grade, in file order. Looks only at rows
/// that have one of its identifiers.
pub fn answer<'a>(
    alloc: Global,
    holdings: &'a Holdings,
    query: &Query,
) -> Result<Answer<'a>, AllocError>
    ensures { IfOk result (λ answer. answer ≡ answer_of holdings.now query.now) }
{
    let places = places_of(alloc, holdings, query)?;
    hits_at(alloc, holdings.rows(), places.as_slice(), query)
}

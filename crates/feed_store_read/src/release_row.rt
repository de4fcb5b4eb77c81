//! Parses a row of the table of releases as a record without parts.
ghost use Rattle.std.specs.Prelude.{◌≡◌, ◌↔◌, ◌<◌, ◌≤◌, ◌∷◌, [], pos, IfOk, IsTrue};
ghost use Rattle.std.specs.Prelude.{MatchOption};
ghost use Rattle.sqlite_value.specs.declared.value.Value.TheVariants.{Int, Text};
ghost use Rattle.feed_names.specs.ReleaseName.{IsName, Name};
ghost use Rattle.feed_model.specs.Reply.{max_file};
ghost use Rattle.feed_store_model.specs.Tables.{IsReleaseRow, number_of};
ghost use Rattle.feed_store_read.specs.Reading.{IsReleaseOf};

use crate::columns::{integer_at, number_at, text_at};
use feed_keep::Record;
use feed_limits::FILE_LIMIT;
use feed_model::State;
use feed_names::{NameFault, ReleaseName, one_release_for_text, one_text_for_release};
use sqlite::{Error, ErrorCode, Row};
use std::alloc::Global;

#[derive(Clone, Copy)]
struct Columns<'a> {
    id: i64,
    text: &'a [u8],
    package_name: &'a [u8],
    day: i64,
    size: u64,
    state: u64,
}

/// Parses a row as its rowid and a record. Returns `None` if this product does not write such a row.
pub fn release_in_row(alloc: Global, row: &Row) -> Result<Option<(i64, Record)>, Error>
    ensures { IfOk result (λ found. MatchOption found (¬ (IsReleaseRow row.now))
        (λ it. IsReleaseOf row.now it.0 it.1)) }
{
    let Some(columns) = columns_in(row) else {
        return Ok(None);
    };
    let Some(name) = name_of(alloc, columns.text)? else {
        return Ok(None);
    };
    let Some(state) = state_of(columns.state) else {
        return Ok(None);
    };
    one_release_for_text();
    one_text_for_release();
    if !is_of(&name, &columns) {
        return Ok(None);
    }
    let record = Record {
        name,
        size: columns.size,
        state,
        reason: None,
        parts: Vec::new(alloc),
    };
    Ok(Some((columns.id, record)))
}

// Returns the columns of a row that has values of the right kinds.
fn columns_in(row: &Row) -> Option<Columns<'_>>
    ensures { MatchOption result (¬ (IsReleaseRow row.now)) (λ c. row.now ≡ Int c.id ∷ Text c.text.now
        ∷ Text c.package_name.now ∷ Int c.day ∷ Int (pos c.size) ∷ Int (pos c.state) ∷ []) }
{
    if row.column_count() != 6 {
        return None;
    }
    Some(Columns {
        id: integer_at(row, 0)?,
        text: text_at(row, 1)?,
        package_name: text_at(row, 2)?,
        day: integer_at(row, 3)?,
        size: number_at(row, 4)?,
        state: number_at(row, 5)?,
    })
}

// Returns the state with this number.
fn state_of(number: u64) -> Option<State>
    ensures { MatchOption result (2 < number) (λ state. number ≡ number_of state) }
{
    match number {
        0 => Some(State::Staged),
        1 => Some(State::Broken),
        2 => Some(State::Active),
        _ => None,
    }
}

// Parses a name. Only a failed allocation is an error.
fn name_of(alloc: Global, text: &[u8]) -> Result<Option<ReleaseName>, Error>
    ensures { IfOk result (λ found. MatchOption found
        ((name : Name) → ¬ (IsName text.now name)) (IsName text.now)) }
{
    match ReleaseName::parse(alloc, text) {
        Ok(name) => Ok(Some(name)),
        Err(NameFault::Memory) => Err(Error::SqliteFailure(ErrorCode::OutOfMemory)),
        Err(NameFault::BadEnding) => Ok(None),
        Err(NameFault::BadDate) => Ok(None),
        Err(NameFault::BadStem) => Ok(None),
    }
}

// Returns whether the columns have the package and the day of the name, and a size within the limit.
fn is_of(name: &ReleaseName, columns: &Columns<'_>) -> bool
    ensures { IsTrue result ↔ (columns.now.package_name.now ≡ name.now.package_name) × (columns.now.day ≡ name.now.day)
        × (columns.now.size ≤ max_file) }
{
    name.package() == columns.package_name
        && i64::from(name.day()) == columns.day
        && columns.size <= FILE_LIMIT as u64
}

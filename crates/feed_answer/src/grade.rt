//! Grades: how well a row covers the days or the volume that a query asks for.
ghost use Rattle.std.specs.Prelude.{◌≡◌, Some};
ghost use Rattle.feed_answer.specs.Grades.{both_grades, days_grade, grade_as, grade_of, has_begun_by};
ghost use Rattle.feed_answer.specs.Grades.{has_not_ended_before, volume_grade};
ghost use Rattle.feed_answer.specs.QueryValue.{is_named};
ghost use Rattle.feed_kbart.specs.Identifiers.{kind};
ghost use Rattle.feed_kbart.specs.RowCells.{content_of};

use crate::query::Query;
use feed_dates::DayRange;
use feed_identifiers::Identifier;
use feed_kbart::{Kind, Row, RowCells};
use std::fmt;

/// The grade of a match: how well the row covers what the query asks for.
#[derive(Clone, Copy, Debug, PartialEq, Eq)]
pub enum Grade {
    /// Neither date nor volume was tested: the query or the row has none, or the row is a book.
    Untested,
    /// The row covers some of the query's days, but not all.
    Overlap,
    /// The row covers all of the query's days, or its volume if no date was tested.
    Inside,
}

impl fmt::Display for Grade {
    ghost use Rattle.feed_answer.specs.Grades.{grade_text};

    ghost output = { λ grade. Some (grade_text grade) };

    fn fmt<W: fmt::Write>(&self, f: &mut fmt::Formatter<W>) -> fmt::Result {
        f.write_str(match self {
            Grade::Untested => "untested",
            Grade::Overlap => "overlap",
            Grade::Inside => "inside",
        })
    }
}

// Returns whether coverage has begun by a day. Without a first day it always has.
fn has_begun_by(first: Option<i32>, day: i32) -> bool
    ensures { result ≡ has_begun_by first day }
{
    first.is_none_or(|first| first <= day)
}

// Returns whether coverage lasts to a day. Without a last day it has no end.
fn has_not_ended_before(last: Option<i32>, day: i32) -> bool
    ensures { result ≡ has_not_ended_before last day }
{
    last.is_none_or(|last| day <= last)
}

// Returns the grade of coverage from one day to another, or `None` if the days are not covered at all.
fn tested_days(first: Option<i32>, last: Option<i32>, days: DayRange) -> Option<Grade>
    ensures { result ≡ days_grade first last (Some days) }
{
    if first.is_none() && last.is_none() {
        Some(Grade::Untested)
    } else if !(has_begun_by(first, days.last) && has_not_ended_before(last, days.first)) {
        None
    } else if has_begun_by(first, days.first) && has_not_ended_before(last, days.last) {
        Some(Grade::Inside)
    } else {
        Some(Grade::Overlap)
    }
}

/// Returns the grade of a row with these cells by its dates alone, or `None` if the days are not covered at all.
pub fn days_grade(cells: &RowCells<'_>, days: Option<DayRange>) -> Option<Grade>
    ensures { result ≡ days_grade (content_of cells.now).first_day (content_of cells.now).last_day days }
{
    match days {
        Some(days) => tested_days(cells.first_day(), cells.last_day(), days),
        None => Some(Grade::Untested),
    }
}

// Returns the grade of coverage from one volume to another, or `None` if the volume is outside. A missing side is open.
fn tested_volume(first: Option<u32>, last: Option<u32>, volume: u32) -> Option<Grade>
    ensures { result ≡ volume_grade first last (Some volume) }
{
    if first.is_none() && last.is_none() {
        Some(Grade::Untested)
    } else if first.is_none_or(|first| first <= volume) && last.is_none_or(|last| volume <= last) {
        Some(Grade::Inside)
    } else {
        None
    }
}

/// Returns the grade of a row with these cells by its volumes alone, or `None` if the volume is outside. A missing side
/// is open.
pub fn volume_grade(cells: &RowCells<'_>, volume: Option<u32>) -> Option<Grade>
    ensures { result ≡ volume_grade (content_of cells.now).first_volume (content_of cells.now).last_volume volume }
{
    match volume {
        Some(volume) => {
            let (first, last) = cells.volumes();
            tested_volume(first, last, volume)
        }
        None => Some(Grade::Untested),
    }
}

// Returns the grade by both, if both pass: that of the dates if they were compared, otherwise that of the volumes.
fn both_grades(by_days: Option<Grade>, by_volume: Option<Grade>) -> Option<Grade>
    ensures { result ≡ both_grades by_days by_volume }
{
    let by_days = by_days?;
    let by_volume = by_volume?;
    match by_days {
        Grade::Untested => Some(by_volume),
        _ => Some(by_days),
    }
}

/// Returns the grade of a row with these cells, one of whose identifiers is asked for, if it matches. The dates and the
/// volumes of a book are not tested.
pub fn named_grade(cells: &RowCells<'_>, query: &Query) -> Option<Grade>
    ensures { result ≡ grade_as (kind (content_of cells.now).identifiers) query.now (content_of cells.now) }
{
    match cells.kind() {
        Kind::Serial => both_grades(
            days_grade(cells, query.days()),
            volume_grade(cells, query.volume()),
        ),
        Kind::Book => Some(Grade::Untested),
    }
}

// Returns whether an identifier, if there is one, is asked for.
fn is_named(query: &Query, identifier: Option<Identifier>) -> bool
    ensures { result ≡ is_named query.now identifier }
{
    match &identifier {
        Some(identifier) => query.names(identifier),
        None => false,
    }
}

fn grade_of_cells(cells: &RowCells<'_>, query: &Query) -> Option<Grade>
    ensures { result ≡ grade_of query.now (content_of cells.now) }
{
    if is_named(query, cells.print()) || is_named(query, cells.online()) {
        named_grade(cells, query)
    } else {
        None
    }
}

/// Returns the grade of a row under a query, if the row matches.
pub(crate) fn grade_of(row: &Row, query: &Query) -> Option<Grade>
    ensures { result ≡ grade_of query.now row.now }
{
    grade_of_cells(&row.cells(), query)
}

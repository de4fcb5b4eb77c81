//! How a row covers the days and the volume that a query asks for, each by itself.
ghost use Rattle.std.specs.Prelude.{◌≡◌, not, is_some};
ghost use Rattle.node_hits.specs.Searches.{asked_grade, is_covered, is_dated, is_dated_as, without_volume};

use feed_answer::{Grade, Query, days_grade, named_grade, volume_grade};
use feed_kbart::{Kind, Row};

/// Returns the grade of a row that has one of the identifiers of a query, if it matches.
pub(crate) fn asked_grade(row: &Row, query: &Query) -> Option<Grade>
    ensures { result ≡ asked_grade query.now row.now }
{
    named_grade(&row.cells(), query)
}

/// Returns the same whatever its volumes are.
pub(crate) fn dated_grade(row: &Row, query: &Query) -> Option<Grade>
    ensures { result ≡ asked_grade (without_volume query.now) row.now }
{
    let cells = row.cells();
    match cells.kind() {
        Kind::Serial => days_grade(&cells, query.days()),
        Kind::Book => Some(Grade::Untested),
    }
}

fn is_covered(grade: Option<Grade>) -> bool
    ensures { result ≡ is_covered grade }
{
    match grade {
        Some(Grade::Inside) => true,
        Some(Grade::Overlap) => true,
        Some(Grade::Untested) => false,
        None => false,
    }
}

/// Returns whether a row covers days that a query asks for, and does not have its volume.
pub(crate) fn is_dated(row: &Row, query: &Query) -> bool
    ensures { result ≡ is_dated query.now row.now }
{
    let cells = row.cells();
    match cells.kind() {
        Kind::Serial => {
            is_covered(days_grade(&cells, query.days()))
                && !volume_grade(&cells, query.volume()).is_some()
        }
        Kind::Book => false,
    }
}

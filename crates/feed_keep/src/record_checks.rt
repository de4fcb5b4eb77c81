//! Checks of the records that were read, beyond the form of each row.
ghost use Rattle.std.specs.Prelude.{◌≡◌, ◌↔◌, All, IsTrue};
ghost use Rattle.std.specs.List.{IsDistinct};
ghost use Rattle.std.specs.Ordering.{int_eq, is_lt, nat_cmp, int_cmp};
ghost use Rattle.feed_model.specs.Change.{comes_before};
ghost use Rattle.feed_model.specs.Content.{names};
ghost use Rattle.feed_parts.specs.Shown.{shown_parts};
ghost use Rattle.feed_keep.specs.Shown.{shown};
ghost use Rattle.feed_keep.specs.CheckOrder.{AreNamesAscending, ArePartsAscending};

use crate::list_keep::is_listed_before;
use crate::record::Record;
use feed_parts::Part;

/// Returns whether each name is less than the next one.
pub fn are_names_ascending(records: &[Record]) -> bool
    ensures { IsTrue result ↔ AreNamesAscending (names (shown records.now)) }
{
    records.is_sorted_by(
        |one: &Record, other: &Record| -> bool
            ensures { result ≡ comes_before one.now.name other.now.name }
        { is_listed_before(&one.name, &other.name) },
    )
}

/// Returns whether the parts of each record begin at ascending places.
pub fn are_places_ascending(records: &[Record]) -> bool
    ensures { IsTrue result ↔ All (λ r. ArePartsAscending (shown_parts r.parts.items)) records.now }
{
    for record in records {
        if !are_parts_ascending(&record.parts) {
            return false;
        }
    }
    true
}

fn are_parts_ascending(parts: &[Part]) -> bool
    ensures { IsTrue result ↔ ArePartsAscending (shown_parts parts.now) }
{
    parts.is_sorted_by(
        |one: &Part, other: &Part| -> bool
            ensures { result ≡ is_lt (nat_cmp one.now.first other.now.first) }
        { one.first < other.first },
    )
}

/// Sorts numbers, and returns whether they are distinct.
pub fn sort_distinct(ids: &mut [i64]) -> bool
    ensures { IsTrue result ↔ IsDistinct int_eq ids.old }
{
    ids.sort_unstable();
    ids.is_sorted_by(
        |one: &i64, other: &i64| -> bool
            ensures { result ≡ is_lt (int_cmp one.now other.now) }
        { one < other },
    )
}

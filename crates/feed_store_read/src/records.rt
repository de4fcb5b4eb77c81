//! Finds the record of a release by its name, and adds a part to it.
ghost use Rattle.std.specs.Prelude.{◌≡◌, ◌≢◌, ◌<◌, All, IfNone, IfOk, IfSome, MatchBool, length, map};
ghost use Rattle.std.specs.Ordering.{nat_cmp};
ghost use Rattle.std.specs.Cmp.Lexicographic.{slice_cmp};
ghost use Rattle.std.specs.List.{HoldsAt};
ghost use Rattle.feed_names.specs.ReleaseName.{text_of};
ghost use Rattle.feed_model.specs.Content.{names};
ghost use Rattle.feed_keep.specs.Shown.{shown};
ghost use Rattle.feed_keep.specs.CheckOrder.{AreNamesAscending};
ghost use Rattle.feed_store_read.specs.Pieces.{given_to};

use feed_keep::Record;
use feed_parts::Part;
use std::alloc::{AllocError, Global};
use std::cmp::Ordering;

/// Adds a part to the record with this name. Returns false if there is none.
pub fn add_part(
    alloc: Global,
    records: &mut Vec<Record>,
    text: &[u8],
    first: u64,
    bytes: &[u8],
) -> Result<bool, AllocError>
    requires up { AreNamesAscending (names (shown records.old.items)) }
    ensures names { names (shown records.new.items) ≡ names (shown records.old.items) }
    ensures given { IfOk result (λ given. MatchBool given (shown records.new.items
        ≡ map (given_to text.now (record { first = first; bytes = bytes.now })) (shown records.old.items))
        (All (λ r. text_of r.name ≢ text.now) records.old.items)) }
{
    let Some(at) = find_record(records, text) else {
        return Ok(false);
    };
    let bytes = Vec::from_slice(alloc, bytes)?;
    let record = &mut records[at];
    record.parts.push(Part { first, bytes })?;
    Ok(true)
}

/// Returns the place of the record with this name.
pub fn find_record(records: &[Record], text: &[u8]) -> Option<usize>
    requires up { AreNamesAscending (names (shown records.now)) }
    ensures within { IfSome result (λ at. at < length records.now) }
    ensures found { IfSome result (HoldsAt (λ r. text_of r.name ≡ text.now) records.now) }
    ensures none { IfNone result (All (λ r. text_of r.name ≢ text.now) records.now) }
{
    let place = records.binary_search_by(
        |record: &Record| -> Ordering
            ensures { result ≡ slice_cmp nat_cmp (text_of record.now.name) text.entry.now }
        { record.name.text().cmp(&text) },
    );
    match place {
        Ok(at) => Some(at),
        Err(_) => None,
    }
}

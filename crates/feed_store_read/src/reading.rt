//! Reads all records of a database, with or without the reasons of the broken releases.
ghost use Rattle.std.specs.Prelude.{◌≡◌, false, IfOk, IfSome, MatchOption, map};
ghost use Rattle.std.specs.List.{IsDistinct};
ghost use Rattle.sqlite.specs.Effect.{Database};
ghost use Rattle.sqlite.specs.Held.{state};
ghost use Rattle.feed_names.specs.ReleaseName.{name_eq};
ghost use Rattle.feed_model.specs.Content.{names};
ghost use Rattle.feed_keep.specs.Order.{IsInOrder};
ghost use Rattle.feed_keep.specs.Shown.{shown};
ghost use Rattle.feed_store_model.specs.Live.{IsLive};
ghost use Rattle.feed_store_model.specs.Tables.{HoldsReleases, HoldsRecords, IsLayout2, IsTabled};
ghost use Rattle.feed_store_model.specs.Tables.{stored_content, content_without_reasons};
ghost use Rattle.feed_keep.specs.CheckOrder.{AreNamesAscending};
ghost use Rattle.feed_store_read.specs.Releases.{LeavesRows, WritesNothing};
ghost use Rattle.feed_store_read.specs.Selected.{AreSelected, AreRecordsOf, AreRecordsWithoutReasons};

use crate::pieces::select_pieces;
use crate::reasons::select_reasons;
use crate::releases::{Releases, select_releases};
use feed_keep::{Record, are_names_ascending, are_places_ascending, sort_distinct};
use sqlite::{Alter, Connection, Error, ErrorCode};
use std::alloc::Global;

/// Reads all records of a database of either layout, without reasons, ordered by the texts of their names, each with
/// its parts ordered by their first places. Returns `None` if the tables do not hold a list of records. It writes
/// nothing, and holds the bytes of each part once.
///
/// # Errors
///
/// Returns SQLite's error, `OutOfMemory` if an allocation fails, and `TransactionState` inside a transaction.
pub fn read_without_reasons<S: Alter>(
    alloc: Global,
    conn: &mut Connection<S>,
) -> Result<Option<Vec<Record>>, Error>
    requires { conn.old.in_transaction ≡ false }
    ensures leaves { LeavesRows (state S.Store conn.old) (state S.Store conn.new) }
    ensures up { IfOk result (λ found. IfSome found
        (λ records. AreNamesAscending (names (shown records.items)))) }
    ensures distinct { IfOk result (λ found. IfSome found
        (λ records. IsDistinct name_eq (names (shown records.items)))) }
    ensures order { IfOk result (λ found. IfSome found (λ records. IsInOrder (shown records.items))) }
    ensures records { IsLive (state S.Store conn.new) → IsTabled (state S.Store conn.old).now → IfOk result
        (λ found. IfSome found (λ records. shown records.items
        ≡ content_without_reasons (state S.Store conn.old).now)) }
    ensures listed { IsLive (state S.Store conn.new) → IsTabled (state S.Store conn.old).now → IfOk result
        (λ found. MatchOption found (¬ (HoldsReleases (state S.Store conn.old).now))
        (λ records. HoldsReleases (state S.Store conn.old).now)) }
{
    if !conn.is_autocommit() {
        return Err(Error::SqliteFailure(ErrorCode::TransactionState));
    }
    match select_all(alloc, conn)? {
        Some((found, ids)) => Ok(check_records(found, ids)),
        None => Ok(None),
    }
}

/// Reads all records of a database of layout 2, ordered by the texts of their names, each with its parts ordered by
/// their first places. Returns `None` if the tables do not hold a list of records. It writes nothing.
///
/// # Errors
///
/// As of `read_without_reasons`.
pub fn read_records<S: Alter>(
    alloc: Global,
    conn: &mut Connection<S>,
) -> Result<Option<Vec<Record>>, Error>
    requires { conn.old.in_transaction ≡ false }
    ensures leaves { LeavesRows (state S.Store conn.old) (state S.Store conn.new) }
    ensures distinct { IfOk result (λ found. IfSome found
        (λ records. IsDistinct name_eq (names (shown records.items)))) }
    ensures order { IfOk result (λ found. IfSome found (λ records. IsInOrder (shown records.items))) }
    ensures records { IsLive (state S.Store conn.new) → IsLayout2 (state S.Store conn.old).now → IfOk result
        (λ found. IfSome found (λ records. shown records.items ≡ stored_content (state S.Store conn.old).now)) }
    ensures listed { IsLive (state S.Store conn.new) → IsLayout2 (state S.Store conn.old).now → IfOk result
        (λ found. MatchOption found (¬ (HoldsRecords (state S.Store conn.old).now))
        (λ records. HoldsRecords (state S.Store conn.old).now)) }
{
    match read_without_reasons(alloc, conn)? {
        Some(records) => read_reasons(alloc, conn, records),
        None => Ok(None),
    }
}

// Reads the reasons of the records. Returns `None` if the table does not hold a list of reasons.
fn read_reasons<S: Alter>(
    alloc: Global,
    conn: &mut Connection<S>,
    records: Vec<Record>,
) -> Result<Option<Vec<Record>>, Error>
    requires idle { conn.old.in_transaction ≡ false }
    requires up { AreNamesAscending (names (shown records.items)) }
    ensures leaves { LeavesRows (state S.Store conn.old) (state S.Store conn.new) }
    ensures names { IfOk result (λ found. IfSome found
        (λ explained. names (shown explained.items) ≡ names (shown records.items))) }
    ensures parts { IfOk result (λ found. IfSome found
        (λ explained. map (λ r. r.parts) (shown explained.items) ≡ map (λ r. r.parts) (shown records.items))) }
    ensures explained { IsLive (state S.Store conn.new) → IsLayout2 (state S.Store conn.old).now
        → HoldsReleases (state S.Store conn.old).now
        → shown records.items ≡ content_without_reasons (state S.Store conn.old).now
        → IfOk result (λ found. MatchOption found (¬ (HoldsRecords (state S.Store conn.old).now))
        (AreRecordsOf (state S.Store conn.old).now)) }
{
    if !conn.is_autocommit() {
        return Err(Error::SqliteFailure(ErrorCode::TransactionState));
    }
    let mut records = records;
    let Some(mut ids) = select_reasons(alloc, conn, &mut records)? else {
        return Ok(None);
    };
    if sort_distinct(&mut ids) {
        Ok(Some(records))
    } else {
        Ok(None)
    }
}

// Reads the releases with their parts, and the rowids of the parts.
fn select_all<S: Alter>(
    alloc: Global,
    conn: &mut Connection<S>,
) -> Result<Option<(Releases, Vec<i64>)>, Error>
    ensures leaves { WritesNothing (state S.Store conn.old) (state S.Store conn.new) }
    ensures up { IfOk result (λ found. IfSome found (λ it. AreNamesAscending (names (shown it.0.records.items)))) }
    ensures read { IsLive (state S.Store conn.new) → IsTabled (state S.Store conn.old).now → IfOk result
        (λ found. MatchOption found (¬ (HoldsReleases (state S.Store conn.old).now))
        (λ it. AreSelected (state S.Store conn.old).now it.0 it.1.items)) }
{
    let Some(mut found) = select_releases(alloc, conn)? else {
        return Ok(None);
    };
    if !are_names_ascending(&found.records) {
        return Ok(None);
    }
    let Some(ids) = select_pieces(alloc, conn, &mut found)? else {
        return Ok(None);
    };
    Ok(Some((found, ids)))
}

// Returns the records that were read. Returns `None` if a rowid is repeated or parts are not in order.
fn check_records(found: Releases, ids: Vec<i64>) -> Option<Vec<Record>>
    requires up { AreNamesAscending (names (shown found.records.items)) }
    ensures up { IfSome result (λ records. AreNamesAscending (names (shown records.items))) }
    ensures distinct { IfSome result (λ records. IsDistinct name_eq (names (shown records.items))) }
    ensures order { IfSome result (λ records. IsInOrder (shown records.items)) }
    ensures joined { (db : Database) → IsTabled db → AreSelected db found ids.items
        → MatchOption result (¬ (HoldsReleases db)) (AreRecordsWithoutReasons db) }
{
    let mut release_ids = found.ids;
    let mut piece_ids = ids;
    if !sort_distinct(&mut release_ids) {
        return None;
    }
    if !sort_distinct(&mut piece_ids) {
        return None;
    }
    let records = found.records;
    if are_places_ascending(&records) {
        Some(records)
    } else {
        None
    }
}

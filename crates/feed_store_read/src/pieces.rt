//! Reads the stored parts, and adds each to its release.
ghost use Rattle.std.specs.Prelude.{◌≡◌, IfOk, MatchOption};
ghost use Rattle.sqlite.specs.Held.{state};
ghost use Rattle.sqlite.specs.State.{IsUnchanged};
ghost use Rattle.feed_model.specs.Content.{names};
ghost use Rattle.feed_keep.specs.Shown.{shown};
ghost use Rattle.feed_store_model.specs.Live.{IsLive};
ghost use Rattle.feed_store_model.specs.Tables.{HoldsReleases, IsTabled, IsPieceRow, piece_row};
ghost use Rattle.feed_keep.specs.CheckOrder.{AreNamesAscending};
ghost use Rattle.feed_store_read.specs.Pieces.{ArePieces, ShowPieces, IsTakenIfProper};
ghost use Rattle.feed_store_read.specs.Releases.{AreReleases, WritesNothing};

use crate::columns::{blob_at, integer_at, number_at, text_at};
use crate::records::add_part;
use crate::releases::Releases;
use feed_keep::Record;
use sqlite::{Alter, Connection, Error, ErrorCode, Row};
use std::alloc::Global;

/// Adds each stored part to the release with its name, and returns the rowids. Returns `None` if this product does not
/// write such a row, or no release has the name.
pub fn select_pieces<S: Alter>(
    alloc: Global,
    conn: &mut Connection<S>,
    found: &mut Releases,
) -> Result<Option<Vec<i64>>, Error>
    requires up { AreNamesAscending (names (shown found.old.records.items)) }
    ensures names { names (shown found.new.records.items) ≡ names (shown found.old.records.items) }
    ensures ids { found.new.ids ≡ found.old.ids }
    ensures leaves { WritesNothing (state S.Store conn.old) (state S.Store conn.new) }
    ensures read { IsLive (state S.Store conn.new) → IsTabled (state S.Store conn.old).now → IfOk result
        (λ read. IsUnchanged (state S.Store conn.old) (state S.Store conn.new)
        × MatchOption read (AreReleases (state S.Store conn.old).now found.old
        → ¬ (HoldsReleases (state S.Store conn.old).now))
        (λ ids. ArePieces (state S.Store conn.old).now ids.items
        (shown found.old.records.items) (shown found.new.records.items))) }
{
    let mut ids = Vec::new(alloc);
    let mut rows = conn.query(
        "SELECT rowid, name, place, bytes FROM feed_piece ORDER BY name, place",
        &[],
    )?;
    'rows: for _ in 0..u64::MAX {
        let Some(row) = rows.next()? else {
            return Ok(Some(ids));
        };
        if !take_piece(alloc, &mut ids, &mut found.records, row)? {
            return Ok(None);
        }
    }
    Err(Error::SqliteFailure(ErrorCode::TooBig))
}

// Adds the part of a row to its release. Returns false if the row is invalid or no release has its name.
fn take_piece(
    alloc: Global,
    ids: &mut Vec<i64>,
    records: &mut Vec<Record>,
    row: &Row,
) -> Result<bool, Error>
    requires up { AreNamesAscending (names (shown records.old.items)) }
    ensures names { names (shown records.new.items) ≡ names (shown records.old.items) }
    ensures taken { IfOk result (IsTakenIfProper ShowPieces IsPieceRow row.now ids.old.items ids.new.items
        records.old.items records.new.items) }
{
    let Some(piece) = piece_in_row(row) else {
        return Ok(false);
    };
    ids.push(piece.id)?;
    Ok(add_part(alloc, records, piece.text, piece.first, piece.bytes)?)
}

/// A row of the table of parts: its rowid, the name of its release, the place of its first byte, and its bytes.
#[derive(Clone, Copy)]
pub struct PartRow<'a> {
    pub id: i64,
    pub text: &'a [u8],
    pub first: u64,
    pub bytes: &'a [u8],
}

/// Parses a row. Returns `None` if this product does not write such a row.
pub fn piece_in_row(row: &Row) -> Option<PartRow<'_>>
    ensures { MatchOption result (¬ (IsPieceRow row.now)) (λ p. row.now ≡ piece_row p.id p.text.now
        (record { first = p.first; bytes = p.bytes.now })) }
{
    if row.column_count() != 4 {
        return None;
    }
    Some(PartRow {
        id: integer_at(row, 0)?,
        text: text_at(row, 1)?,
        first: number_at(row, 2)?,
        bytes: blob_at(row, 3)?,
    })
}

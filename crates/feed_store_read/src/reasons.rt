//! Reads the reasons of the broken releases, and sets the reason of each.
ghost use Rattle.std.specs.Prelude.{◌≡◌, ◌≢◌, All, IfOk, MatchBool, MatchOption, map};
ghost use Rattle.sqlite.specs.Held.{state};
ghost use Rattle.sqlite.specs.State.{IsUnchanged};
ghost use Rattle.feed_names.specs.ReleaseName.{text_of};
ghost use Rattle.feed_model.specs.Content.{names};
ghost use Rattle.feed_keep.specs.Shown.{shown};
ghost use Rattle.feed_store_model.specs.Live.{IsLive};
ghost use Rattle.feed_store_model.specs.Tables.{HoldsRecords, IsLayout2, IsReasonRow, content_without_reasons};
ghost use Rattle.feed_keep.specs.CheckOrder.{AreNamesAscending};
ghost use Rattle.feed_store_read.specs.Pieces.{IsTakenIfProper};
ghost use Rattle.feed_store_read.specs.Reasons.{AreReasonsOf, ShowReasons, with_first_reason, IsReasonIn};
ghost use Rattle.feed_store_read.specs.Releases.{WritesNothing};
ghost use Rattle.feed_kbart.specs.Labels.{label_at};
ghost use Rattle.feed_store_model.specs.Tables.{reason_at};

use crate::columns::{integer_at, number_at, text_at};
use crate::records::find_record;
use feed_kbart::{BadFile, Label};
use feed_keep::Record;
use sqlite::{Alter, Connection, Error, ErrorCode, Row};
use std::alloc::Global;

/// Sets each stored reason in the record with its name, and returns the rowids. Returns `None` if this product does not
/// write such a row, or no record has the name.
pub fn select_reasons<S: Alter>(
    alloc: Global,
    conn: &mut Connection<S>,
    records: &mut Vec<Record>,
) -> Result<Option<Vec<i64>>, Error>
    requires up { AreNamesAscending (names (shown records.old.items)) }
    ensures names { names (shown records.new.items) ≡ names (shown records.old.items) }
    ensures parts { map (λ r. r.parts) (shown records.new.items) ≡ map (λ r. r.parts) (shown records.old.items) }
    ensures leaves { WritesNothing (state S.Store conn.old) (state S.Store conn.new) }
    ensures read { IsLive (state S.Store conn.new) → IsLayout2 (state S.Store conn.old).now → IfOk result
        (λ read. IsUnchanged (state S.Store conn.old) (state S.Store conn.new)
        × MatchOption read (shown records.old.items ≡ content_without_reasons (state S.Store conn.old).now
        → ¬ (HoldsRecords (state S.Store conn.old).now))
        (λ ids. AreReasonsOf (state S.Store conn.old).now ids.items (shown records.old.items)
        (shown records.new.items))) }
{
    let mut ids = Vec::new(alloc);
    let mut rows = conn.query(
        "SELECT rowid, name, reason, label FROM feed_reason ORDER BY name",
        &[],
    )?;
    'rows: for _ in 0..u64::MAX {
        let Some(row) = rows.next()? else {
            return Ok(Some(ids));
        };
        if !take_reason(&mut ids, records, row)? {
            return Ok(None);
        }
    }
    Err(Error::SqliteFailure(ErrorCode::TooBig))
}

// Sets the reason of a row in its record. Returns false if the row is invalid or no record has its name.
fn take_reason(ids: &mut Vec<i64>, records: &mut Vec<Record>, row: &Row) -> Result<bool, Error>
    requires up { AreNamesAscending (names (shown records.old.items)) }
    ensures names { names (shown records.new.items) ≡ names (shown records.old.items) }
    ensures parts { map (λ r. r.parts) (shown records.new.items) ≡ map (λ r. r.parts) (shown records.old.items) }
    ensures taken { IfOk result (IsTakenIfProper ShowReasons IsReasonRow row.now ids.old.items ids.new.items
        records.old.items records.new.items) }
{
    let Some(reason) = reason_in_row(row) else {
        return Ok(false);
    };
    ids.push(reason.id)?;
    Ok(set_reason(records, reason.text, reason.why))
}

// Sets the reason of the record with this name if it has none yet. Returns false if there is no such record.
fn set_reason(records: &mut Vec<Record>, text: &[u8], why: BadFile) -> bool
    requires up { AreNamesAscending (names (shown records.old.items)) }
    ensures names { names (shown records.new.items) ≡ names (shown records.old.items) }
    ensures parts { map (λ r. r.parts) (shown records.new.items) ≡ map (λ r. r.parts) (shown records.old.items) }
    ensures given { MatchBool result
        (shown records.new.items ≡ map (with_first_reason text.now why) (shown records.old.items))
        (All (λ r. text_of r.name ≢ text.now) records.old.items) }
{
    let Some(at) = find_record(records, text) else {
        return false;
    };
    let record = &mut records[at];
    record.reason = record.reason.or(Some(why));
    true
}

// The numbers that store reasons.
const NOT_UTF8: u64 = 1;

const TWO_MARKS: u64 = 2;

const NO_HEADER: u64 = 3;

const MISSING_LABEL: u64 = 4;

const LABEL_TWICE: u64 = 5;

// The place of the last required label. A reason without a label has the place 0.
const LAST_REQUIRED: u64 = 8;

/// A row of the table of reasons: its rowid, the name of its release, and the reason.
#[derive(Clone, Copy)]
pub struct ReasonRow<'a> {
    pub id: i64,
    pub text: &'a [u8],
    pub why: BadFile,
}

/// Parses a row. Returns `None` if this product does not write such a row.
pub fn reason_in_row(row: &Row) -> Option<ReasonRow<'_>>
    ensures { MatchOption result (¬ (IsReasonRow row.now))
        (λ reason. IsReasonIn row.now reason.id reason.text.now reason.why) }
{
    if row.column_count() != 4 {
        return None;
    }
    let id = integer_at(row, 0)?;
    let text = text_at(row, 1)?;
    let number = number_at(row, 2)?;
    let place = number_at(row, 3)?;
    let why = reason_of(number, place)?;
    Some(ReasonRow { id, text, why })
}

// Returns the reason with this number and this place of a label.
fn reason_of(number: u64, place: u64) -> Option<BadFile>
    ensures { result ≡ reason_at number place }
{
    if number == NOT_UTF8 && place == 0 {
        return Some(BadFile::NotUtf8);
    }
    if number == TWO_MARKS && place == 0 {
        return Some(BadFile::TwoMarks);
    }
    if number == NO_HEADER && place == 0 {
        return Some(BadFile::NoHeader);
    }
    if number == MISSING_LABEL && place <= LAST_REQUIRED {
        return Some(BadFile::MissingLabel(label_of(place)?));
    }
    if number == LABEL_TWICE {
        return Some(BadFile::LabelTwice(label_of(place)?));
    }
    None
}

fn label_of(place: u64) -> Option<Label>
    ensures { result ≡ label_at place }
{
    match u8::try_from(place) {
        Ok(place) => Label::of_place(place),
        Err(_) => None,
    }
}

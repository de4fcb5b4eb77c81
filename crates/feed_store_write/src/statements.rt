//! The SQL statements that change records, each with its effect on the tables.
ghost use Rattle.std.specs.Prelude.{◌≡◌, ◌≤◌, ◌∷◌, [], Some, map};
ghost use Rattle.feed_model.specs.Change.{changed, insert_record, without_earlier};
ghost use Rattle.feed_model.specs.Reply.{max_file};
ghost use Rattle.feed_parts.specs.Shown.{shown_part, shown_parts};
ghost use Rattle.feed_store_model.specs.Records.{bare, with_part, with_parts, with_reason, with_state};
ghost use Rattle.feed_store_model.specs.Tables.{IsStored, number_of, reason_at};
ghost use Rattle.feed_store_write.specs.Effects.{IsContentChange, IsContentChangeIf, IsReasonChangeIf, IsRunOnOk};
ghost use Rattle.feed_store_write.specs.Effects.{IsMadeOnOk, StaysInside};
ghost use Rattle.feed_store_write.specs.Statements.{AddPart, AddReason, AddRelease, DeleteEarlier, HaveRunOnOk};
ghost use Rattle.feed_store_write.specs.Statements.{SetState};
ghost use Rattle.sqlite_value.specs.declared.value.Value.TheVariants.{Text};
ghost use Rattle.sqlite_value.specs.Value.{owned};

use feed_kbart::BadFile;
use feed_model::State;
use feed_names::ReleaseName;
use feed_parts::Part;
use sqlite::types::ToSql;
use sqlite::{Alter, Error, ErrorCode, Transaction};
use sqlite_value::value::ValueRef;

/// Inserts a release without parts.
pub fn insert_release<S: Alter>(
    tx: &mut Transaction<'_, S>,
    name: &ReleaseName,
    size: u32,
    value: State,
) -> Result<(), Error>
    ensures made { IsMadeOnOk S.Store (IsContentChangeIf (size ≤ max_file) (insert_record (bare name.now size value)))
        tx.old.conn.now tx.new.conn.now result }
    ensures ran { HaveRunOnOk S.Store (AddRelease name.now size value ∷ []) tx.old.conn.now tx.new.conn.now result }
    ensures inside { StaysInside S.Store tx.old.conn tx.new.conn }
{
    run(
        tx,
        "INSERT INTO feed_release (name, package, day, size, state) VALUES (?1, ?2, ?3, ?4, ?5)",
        &[
            as_text(name.text()),
            as_text(name.package()),
            name.day().to_sql(),
            size.to_sql(),
            number_of(value).to_sql(),
        ],
    )
}

/// Inserts a part of a release. It rejects a place beyond 32 bits, which no file has.
pub fn insert_part<S: Alter>(
    tx: &mut Transaction<'_, S>,
    name: &ReleaseName,
    part: &Part,
) -> Result<(), Error>
    ensures made { IsMadeOnOk S.Store (IsContentChange (changed name.now (with_part (shown_part part.now))))
        tx.old.conn.now tx.new.conn.now result }
    ensures ran { HaveRunOnOk S.Store (AddPart name.now (shown_part part.now) ∷ [])
        tx.old.conn.now tx.new.conn.now result }
    ensures inside { StaysInside S.Store tx.old.conn tx.new.conn }
{
    let Ok(place) = u32::try_from(part.first) else {
        return Err(Error::SqliteFailure(ErrorCode::TooBig));
    };
    run(
        tx,
        "INSERT INTO feed_piece (name, place, bytes) VALUES (?1, ?2, ?3)",
        &[as_text(name.text()), place.to_sql(), part.bytes.to_sql()],
    )
}

/// Sets the state of a release.
pub fn set_state<S: Alter>(
    tx: &mut Transaction<'_, S>,
    name: &ReleaseName,
    value: State,
) -> Result<(), Error>
    ensures made { IsMadeOnOk S.Store (IsContentChange (changed name.now (with_state value)))
        tx.old.conn.now tx.new.conn.now result }
    ensures ran { HaveRunOnOk S.Store (SetState name.now value ∷ []) tx.old.conn.now tx.new.conn.now result }
    ensures inside { StaysInside S.Store tx.old.conn tx.new.conn }
{
    run(
        tx,
        "UPDATE feed_release SET state = ?2 WHERE name = ?1",
        &[as_text(name.text()), number_of(value).to_sql()],
    )
}

/// Inserts the reason of a release.
pub fn insert_reason<S: Alter>(
    tx: &mut Transaction<'_, S>,
    name: &ReleaseName,
    why: BadFile,
) -> Result<(), Error>
    ensures made { IsMadeOnOk S.Store (IsReasonChangeIf (IsStored why) (changed name.now (with_reason why)))
        tx.old.conn.now tx.new.conn.now result }
    ensures ran { HaveRunOnOk S.Store (AddReason name.now why ∷ []) tx.old.conn.now tx.new.conn.now result }
    ensures inside { StaysInside S.Store tx.old.conn tx.new.conn }
{
    let (number, place) = numbers_of(why);
    run(
        tx,
        "INSERT INTO feed_reason (name, reason, label) VALUES (?1, ?2, ?3)",
        &[as_text(name.text()), number.to_sql(), place.to_sql()],
    )
}

/// Deletes the earlier releases of the name's package, with their parts and reasons.
pub fn delete_earlier<S: Alter>(
    tx: &mut Transaction<'_, S>,
    name: &ReleaseName,
) -> Result<(), Error>
    ensures made { IsMadeOnOk S.Store (IsContentChange (without_earlier name.now))
        tx.old.conn.now tx.new.conn.now result }
    ensures ran { HaveRunOnOk S.Store (DeleteEarlier name.now ∷ []) tx.old.conn.now tx.new.conn.now result }
    ensures inside { StaysInside S.Store tx.old.conn tx.new.conn }
{
    run(
        tx,
        "DELETE FROM feed_release WHERE package = ?1 AND day < ?2",
        &[as_text(name.package()), name.day().to_sql()],
    )
}

/// Inserts parts of a release, one after another.
pub fn insert_parts<S: Alter>(
    tx: &mut Transaction<'_, S>,
    name: &ReleaseName,
    parts: &[Part],
) -> Result<(), Error>
    ensures made { IsMadeOnOk S.Store (IsContentChange (changed name.now (with_parts (shown_parts parts.now))))
        tx.old.conn.now tx.new.conn.now result }
    ensures ran { HaveRunOnOk S.Store (map (AddPart name.now) (shown_parts parts.now))
        tx.old.conn.now tx.new.conn.now result }
    ensures inside { StaysInside S.Store tx.old.conn tx.new.conn }
{
    for part in parts {
        insert_part(tx, name, part)?;
    }
    Ok(())
}

// Returns the number that stores a state.
fn number_of(state: State) -> u32
    ensures { result ≡ number_of state }
{
    match state {
        State::Staged => 0,
        State::Broken => 1,
        State::Active => 2,
    }
}

// Returns the number that stores a reason, and the place of the label that it names, or 0.
fn numbers_of(why: BadFile) -> (u32, u32)
    ensures { IsStored why → reason_at result.0 result.1 ≡ Some why }
{
    match why {
        BadFile::NotUtf8 => (1, 0),
        BadFile::TwoMarks => (2, 0),
        BadFile::NoHeader => (3, 0),
        BadFile::MissingLabel(label) => (4, u32::from(label.place())),
        BadFile::LabelTwice(label) => (5, u32::from(label.place())),
    }
}

/// Runs a statement and ignores the count of its rows. A transaction that has ended rejects it.
pub fn run<S: Alter>(
    tx: &mut Transaction<'_, S>,
    sql: &str,
    params: &[ValueRef<'_>],
) -> Result<(), Error>
    ensures ran { IsRunOnOk S.Store sql.now params.now tx.old.conn.now tx.new.conn.now result }
    ensures inside { StaysInside S.Store tx.old.conn tx.new.conn }
{
    tx.execute(sql, params)?;
    Ok(())
}

/// Returns the bytes of a text as a value.
pub fn as_text(bytes: &[u8]) -> ValueRef<'_>
    ensures { owned result ≡ Text bytes.now }
{
    ValueRef::Text(bytes)
}

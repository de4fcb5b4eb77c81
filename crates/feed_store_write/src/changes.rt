//! Commits each change of the records as one transaction.
ghost use Rattle.std.specs.Prelude.{◌≡◌, ◌++◌, ◌∷◌, [], false, map, OnOk, OnErr};
ghost use Rattle.feed_model.specs.Change.{Activate, Add, Break, changed, grown, without_earlier};
ghost use Rattle.feed_parts.specs.Shown.{shown_parts};
ghost use Rattle.feed_keep.specs.Shown.{shown_change};
ghost use Rattle.feed_store_write.specs.Effects.{IsAllowedChange, IsContentChange, IsLive, IsMadeOnOk, StaysInside};
ghost use Rattle.feed_store_write.specs.Statements.{AddPart, HaveRunOnOk, IsCommitted, SetState, statements_of};
ghost use Rattle.sqlite.specs.Held.{state};
ghost use Rattle.sqlite.specs.State.{HasCleanDisk};

use crate::statements::{delete_earlier, insert_parts, insert_reason, insert_release, set_state};
use feed_kbart::BadFile;
use feed_keep::Change;
use feed_model::State;
use feed_names::ReleaseName;
use feed_parts::Part;
use sqlite::{Alter, Connection, Error, ErrorCode, Transaction};

/// Commits a change of the records in one transaction: the whole change or nothing.
///
/// # Errors
///
/// Returns SQLite's error for the statement that failed, `TooBig` for a size or a place beyond 32 bits, and
/// `TransactionState` inside a transaction.
pub fn commit_change<S: Alter>(conn: &mut Connection<S>, change: &Change<'_>) -> Result<(), Error>
    requires { conn.old.in_transaction ≡ false }
    ensures idle { conn.new.in_transaction ≡ false }
    ensures live { IsLive (state S.Store conn.new) → IsLive (state S.Store conn.old) }
    ensures whole { IsLive (state S.Store conn.new) → OnOk result (IsAllowedChange (shown_change change.now)
        (state S.Store conn.old).now (state S.Store conn.new).now) }
    ensures ran { HasCleanDisk (state S.Store conn.new) → OnOk result (IsCommitted S.Store
        (statements_of (shown_change change.now)) conn.old conn.new) }
    ensures neither { IsLive (state S.Store conn.new)
        → OnErr result ((state S.Store conn.new).now ≡ (state S.Store conn.old).now) }
{
    if !conn.is_autocommit() {
        return Err(Error::SqliteFailure(ErrorCode::TransactionState));
    }
    let mut tx = conn.transaction();
    apply_change(&mut tx, change)?;
    tx.commit()
}

// Runs the statements of a change inside a transaction.
fn apply_change<S: Alter>(tx: &mut Transaction<'_, S>, change: &Change<'_>) -> Result<(), Error>
    ensures made { IsMadeOnOk S.Store (IsAllowedChange (shown_change change.now))
        tx.old.conn.now tx.new.conn.now result }
    ensures ran { HaveRunOnOk S.Store (statements_of (shown_change change.now)) tx.old.conn.now tx.new.conn.now result }
    ensures inside { StaysInside S.Store tx.old.conn tx.new.conn }
{
    match change {
        Change::Add { name, size } => add_release(tx, name, *size),
        Change::Pieces { name, parts } => insert_parts(tx, name, parts),
        Change::Break {
            name,
            parts,
            reason,
        } => break_release(tx, name, parts, *reason),
        Change::Activate { name, parts } => activate(tx, name, parts),
    }
}

// Adds the record of a release. It rejects a size beyond 32 bits, which no file has.
fn add_release<S: Alter>(
    tx: &mut Transaction<'_, S>,
    name: &ReleaseName,
    size: u64,
) -> Result<(), Error>
    ensures made { IsMadeOnOk S.Store (IsAllowedChange (Add name.now size)) tx.old.conn.now tx.new.conn.now result }
    ensures ran { HaveRunOnOk S.Store (statements_of (Add name.now size)) tx.old.conn.now tx.new.conn.now result }
    ensures inside { StaysInside S.Store tx.old.conn tx.new.conn }
{
    let Ok(short) = u32::try_from(size) else {
        return Err(Error::SqliteFailure(ErrorCode::TooBig));
    };
    if size == 0 {
        return add_empty_release(tx, name);
    }
    insert_release(tx, name, short, State::Staged)
}

// Adds the record of a release with an empty file, which is complete and bad.
fn add_empty_release<S: Alter>(tx: &mut Transaction<'_, S>, name: &ReleaseName) -> Result<(), Error>
    ensures made { IsMadeOnOk S.Store (IsAllowedChange (Add name.now 0)) tx.old.conn.now tx.new.conn.now result }
    ensures ran { HaveRunOnOk S.Store (statements_of (Add name.now 0)) tx.old.conn.now tx.new.conn.now result }
    ensures inside { StaysInside S.Store tx.old.conn tx.new.conn }
{
    insert_release(tx, name, 0, State::Broken)?;
    insert_reason(tx, name, BadFile::NoHeader)
}

// Adds the last parts of a release with a bad file, and the reason.
fn break_release<S: Alter>(
    tx: &mut Transaction<'_, S>,
    name: &ReleaseName,
    parts: &[Part],
    why: BadFile,
) -> Result<(), Error>
    ensures made { IsMadeOnOk S.Store (IsAllowedChange (Break name.now (shown_parts parts.now) why))
        tx.old.conn.now tx.new.conn.now result }
    ensures ran { HaveRunOnOk S.Store (statements_of (Break name.now (shown_parts parts.now) why))
        tx.old.conn.now tx.new.conn.now result }
    ensures inside { StaysInside S.Store tx.old.conn tx.new.conn }
{
    finish(tx, name, parts, State::Broken)?;
    insert_reason(tx, name, why)
}

// Adds the last parts of a release, and sets its state.
fn finish<S: Alter>(
    tx: &mut Transaction<'_, S>,
    name: &ReleaseName,
    parts: &[Part],
    value: State,
) -> Result<(), Error>
    ensures made { IsMadeOnOk S.Store (IsContentChange (changed name.now (grown (shown_parts parts.now) value)))
        tx.old.conn.now tx.new.conn.now result }
    ensures ran { HaveRunOnOk S.Store (map (AddPart name.now) (shown_parts parts.now) ++ SetState name.now value ∷ [])
        tx.old.conn.now tx.new.conn.now result }
    ensures inside { StaysInside S.Store tx.old.conn tx.new.conn }
{
    insert_parts(tx, name, parts)?;
    set_state(tx, name, value)
}

// Adds the last parts of a release that becomes active, and deletes the package's records of earlier days.
fn activate<S: Alter>(
    tx: &mut Transaction<'_, S>,
    name: &ReleaseName,
    parts: &[Part],
) -> Result<(), Error>
    ensures made { IsMadeOnOk S.Store (IsContentChange
        (λ c. without_earlier name.now (changed name.now (grown (shown_parts parts.now) State.Active) c)))
        tx.old.conn.now tx.new.conn.now result }
    ensures ran { HaveRunOnOk S.Store (statements_of (Activate name.now (shown_parts parts.now)))
        tx.old.conn.now tx.new.conn.now result }
    ensures inside { StaysInside S.Store tx.old.conn tx.new.conn }
{
    finish(tx, name, parts, State::Active)?;
    delete_earlier(tx, name)
}

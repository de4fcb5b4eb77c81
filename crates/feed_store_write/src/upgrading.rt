//! Upgrades a database of layout 1 to layout 2.
ghost use Rattle.std.specs.Prelude.{◌≡◌, ◌∷◌, [], false, OnErr, OnOk};
ghost use Rattle.feed_keep.specs.Shown.{shown, shown_record};
ghost use Rattle.feed_store_write.specs.Effects.{IsReasonChangeIf, IsLive, IsMadeOnOk, IsRenumbering, StaysInside};
ghost use Rattle.feed_store_write.specs.Effects.{IsUpgradeIf};
ghost use Rattle.feed_store_write.specs.Statements.{HaveRunOnOk, IsCommitted, Plain, reason_of, reasons_of};
ghost use Rattle.feed_store_write.specs.Statements.{upgrading};
ghost use Rattle.feed_store_write.specs.Texts.{set_version_text};
ghost use Rattle.feed_store_write.specs.Upgrading.{AreStored, IsStoredIn, explain, explained_with};
ghost use Rattle.sqlite.specs.Held.{state};
ghost use Rattle.sqlite.specs.State.{HasCleanDisk};

use crate::layout::create_reason;
use crate::statements::{insert_reason, run};
use feed_keep::Record;
use sqlite::{Alter, Connection, Error, ErrorCode, Transaction};

/// Upgrades a database of layout 1 to layout 2, with the reasons of the records, in one transaction: all or nothing.
///
/// # Errors
///
/// Returns SQLite's error for the statement that failed, and `TransactionState` inside a transaction.
pub fn upgrade<S: Alter>(conn: &mut Connection<S>, records: &[Record]) -> Result<(), Error>
    requires { conn.old.in_transaction ≡ false }
    ensures idle { conn.new.in_transaction ≡ false }
    ensures limit { conn.new.step_limit ≡ conn.old.step_limit }
    ensures live { IsLive (state S.Store conn.new) → IsLive (state S.Store conn.old) }
    ensures whole { IsLive (state S.Store conn.new) → OnOk result (IsUpgradeIf (AreStored (shown records.now))
        (explained_with (shown records.now)) (state S.Store conn.old).now (state S.Store conn.new).now) }
    ensures ran { HasCleanDisk (state S.Store conn.new)
        → OnOk result (IsCommitted S.Store (upgrading (shown records.now)) conn.old conn.new) }
    ensures neither { IsLive (state S.Store conn.new)
        → OnErr result ((state S.Store conn.new).now ≡ (state S.Store conn.old).now) }
{
    if !conn.is_autocommit() {
        return Err(Error::SqliteFailure(ErrorCode::TransactionState));
    }
    let mut tx = conn.transaction();
    upgrade_tables(&mut tx, records)?;
    tx.commit()
}

// Creates the table of the reasons, sets the number of the layout, and inserts the reasons.
fn upgrade_tables<S: Alter>(tx: &mut Transaction<'_, S>, records: &[Record]) -> Result<(), Error>
    ensures made { IsMadeOnOk S.Store (IsUpgradeIf (AreStored (shown records.now)) (explained_with (shown records.now)))
        tx.old.conn.now tx.new.conn.now result }
    ensures ran { HaveRunOnOk S.Store (upgrading (shown records.now)) tx.old.conn.now tx.new.conn.now result }
    ensures inside { StaysInside S.Store tx.old.conn tx.new.conn }
{
    create_reason(tx)?;
    set_layout_number(tx)?;
    insert_reasons(tx, records)
}

// Sets the number of the layout.
fn set_layout_number<S: Alter>(tx: &mut Transaction<'_, S>) -> Result<(), Error>
    ensures made { IsMadeOnOk S.Store IsRenumbering tx.old.conn.now tx.new.conn.now result }
    ensures ran { HaveRunOnOk S.Store (Plain set_version_text ∷ []) tx.old.conn.now tx.new.conn.now result }
    ensures inside { StaysInside S.Store tx.old.conn tx.new.conn }
{
    run(tx, "UPDATE feed_layout SET version = 2", &[])
}

// Inserts the reasons of the records that have one.
fn insert_reasons<S: Alter>(tx: &mut Transaction<'_, S>, records: &[Record]) -> Result<(), Error>
    ensures made { IsMadeOnOk S.Store (IsReasonChangeIf (AreStored (shown records.now))
        (explained_with (shown records.now)))
        tx.old.conn.now tx.new.conn.now result }
    ensures ran { HaveRunOnOk S.Store (reasons_of (shown records.now)) tx.old.conn.now tx.new.conn.now result }
    ensures inside { StaysInside S.Store tx.old.conn tx.new.conn }
{
    for record in records {
        insert_reason_of(tx, record)?;
    }
    Ok(())
}

// Inserts the reason of a record, if it has one.
fn insert_reason_of<S: Alter>(tx: &mut Transaction<'_, S>, kept: &Record) -> Result<(), Error>
    ensures made { IsMadeOnOk S.Store (IsReasonChangeIf (IsStoredIn (shown_record kept.now))
        (explain (shown_record kept.now)))
        tx.old.conn.now tx.new.conn.now result }
    ensures ran { HaveRunOnOk S.Store (reason_of (shown_record kept.now).name (shown_record kept.now).reason)
        tx.old.conn.now tx.new.conn.now result }
    ensures inside { StaysInside S.Store tx.old.conn tx.new.conn }
{
    match kept.reason {
        Some(why) => insert_reason(tx, &kept.name, why),
        None => Ok(()),
    }
}

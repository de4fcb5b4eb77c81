//! Creates the tables of an empty database.
ghost use Rattle.std.specs.Prelude.{◌≡◌, ◌∷◌, [], false, IsTrue, OnErr, OnOk};
ghost use Rattle.feed_store_write.specs.Effects.{IsBlank, IsExtension, IsLive, IsMadeOnOk, StaysInside};
ghost use Rattle.feed_store_write.specs.Effects.{IsTransition};
ghost use Rattle.feed_store_write.specs.Schemas.{HasAllTables, HasLayoutTable, HasNoTable, HasPieceTable};
ghost use Rattle.feed_store_write.specs.Schemas.{HasReleaseTable};
ghost use Rattle.feed_store_write.specs.Statements.{HaveRunOnOk, IsCommitted, Plain, creation};
ghost use Rattle.feed_store_write.specs.Texts.{insert_version_text, layout_text, piece_text, reason_text, release_text};
ghost use Rattle.sqlite.specs.Held.{state};
ghost use Rattle.sqlite.specs.State.{HasCleanDisk};

use crate::statements::run;
use sqlite::{Alter, Connection, Error, ErrorCode, Transaction};

/// Creates the tables in an empty database, with the number of the layout, in one transaction: all of them or nothing.
///
/// # Errors
///
/// Returns SQLite's error for the statement that failed, and `TransactionState` inside a transaction.
pub fn create_tables<S: Alter>(conn: &mut Connection<S>) -> Result<(), Error>
    requires { conn.old.in_transaction ≡ false }
    ensures idle { conn.new.in_transaction ≡ false }
    ensures limit { conn.new.step_limit ≡ conn.old.step_limit }
    ensures open { HasCleanDisk (state S.Store conn.new) → OnOk result (IsTrue (state S.Store conn.new).is_open) }
    ensures live { IsLive (state S.Store conn.new) → IsLive (state S.Store conn.old) }
    ensures whole { IsLive (state S.Store conn.new) → OnOk result (IsTransition HasNoTable IsBlank
        (state S.Store conn.old).now (state S.Store conn.new).now) }
    ensures ran { HasCleanDisk (state S.Store conn.new)
        → OnOk result (IsCommitted S.Store creation conn.old conn.new) }
    ensures neither { IsLive (state S.Store conn.new)
        → OnErr result ((state S.Store conn.new).now ≡ (state S.Store conn.old).now) }
{
    if !conn.is_autocommit() {
        return Err(Error::SqliteFailure(ErrorCode::TransactionState));
    }
    let mut tx = conn.transaction();
    create_all(&mut tx)?;
    tx.commit()
}

// Creates the tables, and inserts the row of the layout.
fn create_all<S: Alter>(tx: &mut Transaction<'_, S>) -> Result<(), Error>
    ensures made { IsMadeOnOk S.Store (IsTransition HasNoTable IsBlank) tx.old.conn.now tx.new.conn.now result }
    ensures ran { HaveRunOnOk S.Store creation tx.old.conn.now tx.new.conn.now result }
    ensures inside { StaysInside S.Store tx.old.conn tx.new.conn }
{
    create_layout(tx)?;
    create_release(tx)?;
    create_piece(tx)?;
    create_reason(tx)?;
    insert_version(tx)
}

fn create_layout<S: Alter>(tx: &mut Transaction<'_, S>) -> Result<(), Error>
    ensures made { IsMadeOnOk S.Store (IsTransition HasNoTable HasLayoutTable)
        tx.old.conn.now tx.new.conn.now result }
    ensures ran { HaveRunOnOk S.Store (Plain layout_text ∷ []) tx.old.conn.now tx.new.conn.now result }
    ensures inside { StaysInside S.Store tx.old.conn tx.new.conn }
{
    run(
        tx,
        "CREATE TABLE feed_layout (version INTEGER PRIMARY KEY) STRICT",
        &[],
    )
}

fn create_release<S: Alter>(tx: &mut Transaction<'_, S>) -> Result<(), Error>
    ensures made { IsMadeOnOk S.Store (IsTransition HasLayoutTable HasReleaseTable)
        tx.old.conn.now tx.new.conn.now result }
    ensures ran { HaveRunOnOk S.Store (Plain release_text ∷ []) tx.old.conn.now tx.new.conn.now result }
    ensures inside { StaysInside S.Store tx.old.conn tx.new.conn }
{
    run(
        tx,
        "CREATE TABLE feed_release (
  name TEXT NOT NULL PRIMARY KEY,
  package TEXT NOT NULL,
  day INTEGER NOT NULL,
  size INTEGER NOT NULL,
  state INTEGER NOT NULL,
  CHECK (size >= 0),
  CHECK (state BETWEEN 0 AND 2)
) STRICT",
        &[],
    )
}

fn create_piece<S: Alter>(tx: &mut Transaction<'_, S>) -> Result<(), Error>
    ensures made { IsMadeOnOk S.Store (IsTransition HasReleaseTable HasPieceTable)
        tx.old.conn.now tx.new.conn.now result }
    ensures ran { HaveRunOnOk S.Store (Plain piece_text ∷ []) tx.old.conn.now tx.new.conn.now result }
    ensures inside { StaysInside S.Store tx.old.conn tx.new.conn }
{
    run(
        tx,
        "CREATE TABLE feed_piece (
  name TEXT NOT NULL REFERENCES feed_release (name) ON DELETE CASCADE,
  place INTEGER NOT NULL,
  bytes BLOB NOT NULL,
  PRIMARY KEY (name, place),
  CHECK (place >= 0)
) STRICT",
        &[],
    )
}

/// Creates the table of the reasons.
pub(crate) fn create_reason<S: Alter>(tx: &mut Transaction<'_, S>) -> Result<(), Error>
    ensures made { IsMadeOnOk S.Store IsExtension tx.old.conn.now tx.new.conn.now result }
    ensures blank { IsMadeOnOk S.Store (IsTransition HasPieceTable HasAllTables)
        tx.old.conn.now tx.new.conn.now result }
    ensures ran { HaveRunOnOk S.Store (Plain reason_text ∷ []) tx.old.conn.now tx.new.conn.now result }
    ensures inside { StaysInside S.Store tx.old.conn tx.new.conn }
{
    run(
        tx,
        "CREATE TABLE feed_reason (
  name TEXT NOT NULL PRIMARY KEY REFERENCES feed_release (name) ON DELETE CASCADE,
  reason INTEGER NOT NULL,
  label INTEGER NOT NULL,
  CHECK (reason BETWEEN 1 AND 5),
  CHECK (label BETWEEN 0 AND 13)
) STRICT",
        &[],
    )
}

fn insert_version<S: Alter>(tx: &mut Transaction<'_, S>) -> Result<(), Error>
    ensures made { IsMadeOnOk S.Store (IsTransition HasAllTables IsBlank)
        tx.old.conn.now tx.new.conn.now result }
    ensures ran { HaveRunOnOk S.Store (Plain insert_version_text ∷ []) tx.old.conn.now tx.new.conn.now result }
    ensures inside { StaysInside S.Store tx.old.conn tx.new.conn }
{
    run(tx, "INSERT INTO feed_layout (version) VALUES (2)", &[])
}

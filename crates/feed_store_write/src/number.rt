//! Reads the number of a database's layout.
ghost use Rattle.std.specs.Prelude.{◌≡◌, ◌∷◌, ◌↔◌, [], false, pos, IfOk, IsTrue, MatchBool};
ghost use Rattle.feed_store_write.specs.Effects.{IsLive, ReportsNumber};
ghost use Rattle.feed_store_write.specs.Number.{HasNumber, HasOtherNumber};
ghost use Rattle.sqlite.specs.Held.{state};
ghost use Rattle.sqlite.specs.State.{HasCleanDisk};
ghost use Rattle.sqlite_value.specs.declared.value.Value.TheVariants.{Int};

use sqlite::{Alter, Connection, Error, ErrorCode, Row};
use sqlite_value::value::ValueRef;

/// Returns whether the layout of a database with the tables has this number and no other. It writes nothing.
///
/// # Errors
///
/// Returns SQLite's error, and `TransactionState` inside a transaction.
pub fn has_layout_number<S: Alter>(conn: &mut Connection<S>, number: u32) -> Result<bool, Error>
    ensures idle { conn.old.in_transaction ≡ false → conn.new.in_transaction ≡ false }
    ensures live { IsLive (state S.Store conn.new) → IsLive (state S.Store conn.old) }
    ensures same { IsLive (state S.Store conn.new) → (state S.Store conn.new).now ≡ (state S.Store conn.old).now }
    ensures limit { conn.new.step_limit ≡ conn.old.step_limit }
    ensures reported { HasCleanDisk (state S.Store conn.new) → IfOk result (λ is.
        ReportsNumber number (state S.Store conn.old) (state S.Store conn.new) is) }
    ensures shown { HasCleanDisk (state S.Store conn.new) → IfOk result (λ is.
        MatchBool is (HasNumber number (state S.Store conn.old).now)
        (HasOtherNumber number (state S.Store conn.old).now)) }
{
    if !conn.is_autocommit() {
        return Err(Error::SqliteFailure(ErrorCode::TransactionState));
    }
    let rows = conn.query_all("SELECT version FROM feed_layout", &[])?;
    Ok(is_only_number(rows.as_slice(), number))
}

fn is_only_number(rows: &[Row], number: u32) -> bool
    ensures { IsTrue result ↔ (rows.now ≡ (Int (pos number) ∷ []) ∷ []) }
{
    match rows {
        [row] => is_number(row, number),
        _ => false,
    }
}

fn is_number(row: &Row, number: u32) -> bool
    ensures { IsTrue result ↔ (row.now ≡ Int (pos number) ∷ []) }
{
    match row.get_ref(0) {
        Ok(ValueRef::Int(found)) => row.column_count() == 1 && found == i64::from(number),
        _ => false,
    }
}

//! Decides whether a database is a node's, and creates or upgrades its tables.
ghost use Rattle.std.specs.Prelude.{◌≡◌, ◌≢◌, false, true, IfErr, IfOk, OnErr};
ghost use Rattle.feed_store_model.specs.Layout.{layout_1_schema};
ghost use Rattle.feed_model.specs.Content.{Content};
ghost use Rattle.feed_keep.specs.Shown.{shown};
ghost use Rattle.feed_store_model.specs.Tables.{IsLayout1, HoldsReleases, IsTabled, content_without_reasons};
ghost use Rattle.feed_store_write.specs.Effects.{IsLive, ReportsNumber};
ghost use Rattle.feed_store_write.specs.Number.{HasNumber, HasOtherNumber};
ghost use Rattle.feed_store_write.specs.Upgrading.{AreStored};
ghost use Rattle.feed_store_write.specs.Statements.{IsCommitted, creation, upgrading};
ghost use Rattle.feed_store.specs.Adopted.{IsAdopted, IsCreated, IsDoneBy, IsForeign, IsPrepared, IsRefused};
ghost use Rattle.feed_store.specs.Adopted.{is_alone};
ghost use Rattle.feed_store.specs.Upgraded.{GetsReasons, IsUpgradedWithReasons, HasLayoutNumber1};
ghost use Rattle.sqlite.specs.Held.{state};
ghost use Rattle.sqlite.specs.State.{HasCleanDisk};

use crate::fault::StoreFault;
use crate::reasons::with_reasons;
use feed_keep::Record;
use feed_store_read::read_without_reasons;
use feed_store_write::{
    create_tables, has_layout_1_tables, has_layout_2_tables, has_layout_number, has_no_table,
    is_free, is_layout_1, is_layout_2, upgrade,
};
use sqlite::{Alter, Connection};
use std::alloc::Global;

// The numbers of the layouts. The first had no reasons.
const LAYOUT_1: u32 = 1;

const LAYOUT_2: u32 = 2;

/// Whether the tables of a feed are alone in their database.
#[derive(Clone, Copy)]
pub enum Tables {
    Alone,
    BesideOthers,
}

/// Prepares a database for a keeper: creates the tables if it has none of them, upgrades them from layout 1 to layout
/// 2, or checks those that it has. Returns whether they are alone in the database.
pub fn prepare<S: Alter>(alloc: Global, conn: &mut Connection<S>) -> Result<Tables, StoreFault>
    requires { conn.old.in_transaction ≡ false }
    ensures idle { conn.new.in_transaction ≡ false }
    ensures limit { conn.new.step_limit ≡ conn.old.step_limit }
    ensures neither { IsLive (state S.Store conn.new)
        → OnErr result ((state S.Store conn.new).now ≡ (state S.Store conn.old).now) }
    ensures adopted { IfOk result (λ tables.
        IsAdopted (state S.Store conn.old) (state S.Store conn.new) (is_alone tables)) }
    ensures prepared { IfOk result (λ _. IsLive (state S.Store conn.new) → IsPrepared S.Store conn.old conn.new) }
    ensures cause { IfErr result (λ fault. fault ≡ StoreFault.NotOurs → IsLive (state S.Store conn.new)
        → IsRefused (state S.Store conn.old).now) }
{
    if has_no_table(conn.schema()) {
        make_tables(conn)?;
        return Ok(Tables::Alone);
    }
    if is_layout_2(conn.schema()) {
        check_number(conn, LAYOUT_2)?;
        return Ok(Tables::Alone);
    }
    if is_layout_1(conn.schema()) {
        upgrade_layout(alloc, conn)?;
        return Ok(Tables::Alone);
    }
    prepare_beside_others(alloc, conn)?;
    Ok(Tables::BesideOthers)
}

/// Returns whether the tables are alone in their database.
pub fn is_alone(tables: Tables) -> bool
    ensures { result ≡ is_alone tables }
{
    match tables {
        Tables::Alone => true,
        Tables::BesideOthers => false,
    }
}

// Creates the tables in a database that has none of them.
fn make_tables<S: Alter>(conn: &mut Connection<S>) -> Result<(), StoreFault>
    requires { conn.old.in_transaction ≡ false }
    ensures idle { conn.new.in_transaction ≡ false }
    ensures limit { conn.new.step_limit ≡ conn.old.step_limit }
    ensures neither { IsLive (state S.Store conn.new)
        → OnErr result ((state S.Store conn.new).now ≡ (state S.Store conn.old).now) }
    ensures made { IfOk result (λ _. IsCreated (state S.Store conn.old) (state S.Store conn.new)) }
    ensures ran { IfOk result (λ _. HasCleanDisk (state S.Store conn.new)
        → IsCommitted S.Store creation conn.old conn.new) }
    ensures cause { IfErr result (λ fault. fault ≢ StoreFault.NotOurs) }
{
    Ok(create_tables(conn)?)
}

// Checks that the layout has this number.
fn check_number<S: Alter>(conn: &mut Connection<S>, number: u32) -> Result<(), StoreFault>
    requires { conn.old.in_transaction ≡ false }
    ensures idle { conn.new.in_transaction ≡ false }
    ensures limit { conn.new.step_limit ≡ conn.old.step_limit }
    ensures live { IsLive (state S.Store conn.new) → IsLive (state S.Store conn.old) }
    ensures same { IsLive (state S.Store conn.new) → (state S.Store conn.new).now ≡ (state S.Store conn.old).now }
    ensures reported { IfOk result (λ _. HasCleanDisk (state S.Store conn.new)
        → ReportsNumber number (state S.Store conn.old) (state S.Store conn.new) true) }
    ensures found { IfOk result (λ _. HasCleanDisk (state S.Store conn.new)
        → HasNumber number (state S.Store conn.old).now) }
    ensures other { IfErr result (λ fault. fault ≡ StoreFault.NotOurs → HasCleanDisk (state S.Store conn.new)
        → HasOtherNumber number (state S.Store conn.old).now
        × ReportsNumber number (state S.Store conn.old) (state S.Store conn.new) false) }
{
    if has_layout_number(conn, number)? {
        Ok(())
    } else {
        Err(StoreFault::NotOurs)
    }
}

// Upgrades a database of layout 1 to layout 2, with the reason of each broken release.
fn upgrade_layout<S: Alter>(alloc: Global, conn: &mut Connection<S>) -> Result<(), StoreFault>
    requires { conn.old.in_transaction ≡ false }
    ensures idle { conn.new.in_transaction ≡ false }
    ensures limit { conn.new.step_limit ≡ conn.old.step_limit }
    ensures neither { IsLive (state S.Store conn.new)
        → OnErr result ((state S.Store conn.new).now ≡ (state S.Store conn.old).now) }
    ensures live { IsLive (state S.Store conn.new) → IsLive (state S.Store conn.old) }
    ensures first { IfOk result (λ _. IsLive (state S.Store conn.new)
        → (state S.Store conn.old).now.schema ≡ layout_1_schema → HasLayoutNumber1 (state S.Store conn.old).now) }
    ensures moved { IfOk result (λ _. IsLive (state S.Store conn.new) → IsLayout1 (state S.Store conn.old).now
        → IsUpgradedWithReasons (state S.Store conn.old).now (state S.Store conn.new).now) }
    ensures upgraded { IfOk result (λ _. IsLive (state S.Store conn.new) → HasNumber 1 (state S.Store conn.old).now
        × (records : Content) × IsDoneBy S.Store (upgrading records) conn.old conn.new) }
    ensures other { IfErr result (λ fault. fault ≡ StoreFault.NotOurs → IsLive (state S.Store conn.new)
        → HasOtherNumber 1 (state S.Store conn.old).now
        × ((state S.Store conn.old).now.schema ≡ layout_1_schema → ¬ (HasLayoutNumber1 (state S.Store conn.old).now))) }
{
    check_number(conn, LAYOUT_1)?;
    let records = read_with_reasons(alloc, conn)?;
    Ok(upgrade(conn, &records)?)
}

// Reads the records of a database of layout 1, and adds their reasons. The list is empty if the tables do not hold one.
fn read_with_reasons<S: Alter>(
    alloc: Global,
    conn: &mut Connection<S>,
) -> Result<Vec<Record>, StoreFault>
    requires { conn.old.in_transaction ≡ false }
    ensures idle { conn.new.in_transaction ≡ false }
    ensures limit { conn.new.step_limit ≡ conn.old.step_limit }
    ensures live { IsLive (state S.Store conn.new) → IsLive (state S.Store conn.old) }
    ensures same { IsLive (state S.Store conn.new) → (state S.Store conn.new).now ≡ (state S.Store conn.old).now }
    ensures stored { IfOk result (λ records. AreStored (shown records.items)) }
    ensures read { IfOk result (λ records. IsLive (state S.Store conn.new)
        → IsTabled (state S.Store conn.old).now → HoldsReleases (state S.Store conn.old).now
        → GetsReasons (content_without_reasons (state S.Store conn.old).now) (shown records.items)) }
    ensures cause { IfErr result (λ fault. fault ≢ StoreFault.NotOurs) }
{
    match read_without_reasons(alloc, conn)? {
        Some(records) => match with_reasons(alloc, records) {
            Ok(records) => Ok(records),
            Err(_) => Err(StoreFault::Memory),
        },
        None => Ok(Vec::new(alloc)),
    }
}

// Prepares a database that has other tables: creates the tables if none of their names is used, and otherwise requires
// those of a layout.
fn prepare_beside_others<S: Alter>(
    alloc: Global,
    conn: &mut Connection<S>,
) -> Result<(), StoreFault>
    requires { conn.old.in_transaction ≡ false }
    ensures idle { conn.new.in_transaction ≡ false }
    ensures limit { conn.new.step_limit ≡ conn.old.step_limit }
    ensures neither { IsLive (state S.Store conn.new)
        → OnErr result ((state S.Store conn.new).now ≡ (state S.Store conn.old).now) }
    ensures prepared { IfOk result (λ _. IsLive (state S.Store conn.new) → IsPrepared S.Store conn.old conn.new) }
    ensures foreign { IfErr result (λ fault. fault ≡ StoreFault.NotOurs → IsLive (state S.Store conn.new)
        → IsForeign (state S.Store conn.old).now) }
{
    if is_free(conn.schema()) {
        return make_tables(conn);
    }
    if has_layout_2_tables(conn.schema()) {
        return check_number(conn, LAYOUT_2);
    }
    if has_layout_1_tables(conn.schema()) {
        return upgrade_layout(alloc, conn);
    }
    Err(StoreFault::NotOurs)
}

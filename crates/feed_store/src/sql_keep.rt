//! The SQL store of a feed's records.
ghost use Rattle.std.specs.Prelude.{◌≡◌, false, None, IfErr, IfOk, MatchResult};

use crate::adopt::{is_alone, prepare};
use crate::fault::{AdoptFault, StoreFault, StoreFileFault, keep_fault_of};
use feed_keep::{Change, Keep, Record};
use feed_model::KeepFault;
use feed_store_read::read_records;
use feed_store_write::commit_change;
use sqlite::{Alter, Connection, MemStore};
use std::alloc::Global;
use std::marker::Model;

/// A keeper over SQL. Contracts see it as its connection, the count of its failures, whether the tables of a keeper are
/// alone in its database, and the count of its loads. The clauses on records hold if they are alone.
#[derive(Drop)]
pub struct SqlKeep<S: Alter> {
    pub(crate) conn: Connection<S>,
    failures: u64,
    alone: bool,
    loads: u64,
}

impl<S: Alter> Model for SqlKeep<S> {
    ghost use Rattle.std.specs.Prelude.{ℕ, Bool, false, ◌≡◌, IsTrue, refl};
    ghost use Rattle.std.specs.Coded.{code_by, coded×, coded_ℕ, coded_bool};
    ghost use Rattle.sqlite.specs.Held.{Held, held_code, state};
    ghost use Rattle.feed_store_model.specs.Tables.{IsLayout2};
    ghost use Rattle.feed_store_write.specs.Effects.{IsLive};

    ghost Value = { Held S × (ℕ × Bool × ℕ) };

    ghost coded = { coded× (held_code S.code) (code_by (ℕ × (Bool × ℕ)) (coded× coded_ℕ (coded× coded_bool coded_ℕ))
        (λ s. (s.0, (s.1, s.2))) (λ s. (s.0, s.1.0, s.1.1)) (λ _. refl)) };

    ghost view = { λ k. (k.conn, (k.failures, k.alone, k.loads)) };

    ghost invariant = { λ k. (k.conn.in_transaction ≡ false)
        × (IsTrue k.alone → IsLive (state S.Store k.conn) → IsLayout2 (state S.Store k.conn).now) };
}

impl<S: Alter> SqlKeep<S> {
    ghost use Rattle.sqlite.specs.Held.{state};
    ghost use Rattle.feed_store_model.specs.Live.{IsLive};
    ghost use Rattle.feed_store.specs.Adopted.{IsAdopted, IsPrepared, IsRefused};

    /// Takes over a connection that is in no transaction, and removes its limit of steps. Creates the tables in a
    /// database that has none of them, and upgrades one of layout 1 to layout 2 with the reason of each broken release,
    /// each in one transaction. It leaves other tables alone.
    ///
    /// # Errors
    ///
    /// Returns the cause and the connection. Its database is unchanged.
    pub fn adopt(alloc: Global, conn: Connection<S>) -> Result<SqlKeep<S>, AdoptFault<S>>
        requires { conn.in_transaction ≡ false }
        ensures adopted { IfOk result (λ keep.
            IsAdopted (state S.Store conn) (state S.Store keep.0) keep.1.1) }
        ensures prepared { IfOk result (λ keep. IsLive (state S.Store keep.0) → IsPrepared S.Store conn keep.0) }
        ensures cause { IfErr result (λ fault. fault.cause ≡ StoreFault.NotOurs
            → IsLive (state S.Store fault.connection) → IsRefused (state S.Store conn).now) }
        ensures fresh { IfOk result (λ keep. (keep.1.0 ≡ 0) × (keep.1.2 ≡ 0)) }
        ensures refused { IfErr result (λ fault. fault.connection.in_transaction ≡ false) }
        ensures neither { IfErr result (λ fault. IsLive (state S.Store fault.connection)
            → (state S.Store fault.connection).now ≡ (state S.Store conn).now) }
        ensures lifted { MatchResult result (λ keep. keep.0.step_limit ≡ None)
            (λ fault. fault.connection.step_limit ≡ None) }
    {
        let mut conn = conn;
        conn.set_step_limit(None);
        match prepare(alloc, &mut conn) {
            Ok(tables) => Ok(SqlKeep {
                conn,
                failures: 0,
                alone: is_alone(tables),
                loads: 0,
            }),
            Err(cause) => Err(AdoptFault {
                cause,
                connection: conn,
            }),
        }
    }

    /// Returns the connection, which is in no transaction.
    pub fn into_connection(self) -> Connection<S>
        ensures same { result ≡ self.0 }
        ensures idle { result.in_transaction ≡ false }
    {
        let SqlKeep {
            conn,
            failures: _,
            alone: _,
            loads: _,
        } = self;
        conn
    }
}

impl<S: Alter + Drop> SqlKeep<S> {
    ghost use Rattle.sqlite.specs.Held.{state};
    ghost use Rattle.feed_store.specs.Adopted.{IsAdopted};

    /// Adopts a connection as `adopt` does, and drops one that is refused. It has few clauses, since each costs a proof
    /// at the files of a store.
    pub(crate) fn adopt_or_drop(
        alloc: Global,
        conn: Connection<S>,
    ) -> Result<SqlKeep<S>, StoreFileFault>
        requires { conn.in_transaction ≡ false }
        ensures adopted { IfOk result (λ keep.
            IsAdopted (state S.Store conn) (state S.Store keep.0) keep.1.1) }
        ensures fresh { IfOk result (λ keep. (keep.1.0 ≡ 0) × (keep.1.2 ≡ 0)) }
    {
        match SqlKeep::adopt(alloc, conn) {
            Ok(keep) => Ok(keep),
            Err(fault) => Err(StoreFileFault::from(fault.cause)),
        }
    }
}

impl<S: Alter + Drop> Keep for SqlKeep<S> {
    ghost use Rattle.std.specs.Prelude.{Err, IsErrOf, IsTrue, OnErr, OnOk};
    ghost use Rattle.std.specs.List.{IsDistinct};
    ghost use Rattle.feed_names.specs.ReleaseName.{name_eq};
    ghost use Rattle.feed_model.specs.Content.{names};
    ghost use Rattle.feed_model.specs.Change.{after, IsAllowed};
    ghost use Rattle.feed_keep.specs.Cause.{IsCounted};
    ghost use Rattle.feed_keep.specs.Loads.{one_more};
    ghost use Rattle.feed_keep.specs.Order.{IsInOrder};
    ghost use Rattle.feed_keep.specs.Shown.{shown, shown_change};
    ghost use Rattle.sqlite.specs.Held.{state};
    ghost use Rattle.feed_store_model.specs.Live.{IsLive};
    ghost use Rattle.feed_store_model.specs.Tables.{HoldsRecords, stored_content};

    ghost content = { λ k. stored_content (state S.Store k.0).now };

    ghost clean = { λ k. IsTrue k.1.1 × IsLive (state S.Store k.0) };

    ghost listed = { λ k. HoldsRecords (state S.Store k.0).now };

    ghost failed = { λ k. k.1.0 };

    ghost loads = { λ k. k.1.2 };

    fn failures(&self) -> u64 {
        self.failures
    }

    /// Loads the records, and keeps whether the tables are alone.
    fn load(&mut self, alloc: Global) -> Result<Vec<Record>, KeepFault>
        ensures records { IfOk result (λ records. ⟦<SqlKeep<S> as Keep>⟧.clean self.new
            → shown records.items ≡ ⟦<SqlKeep<S> as Keep>⟧.content self.old) }
        ensures distinct { IfOk result (λ records. IsDistinct name_eq (names (shown records.items))) }
        ensures order { IfOk result (λ records. IsInOrder (shown records.items)) }
        ensures listed { IfOk result (λ _. ⟦<SqlKeep<S> as Keep>⟧.clean self.new
            → ∥ ⟦<SqlKeep<S> as Keep>⟧.listed self.old ∥₁) }
        ensures damaged { IsErrOf result KeepFault.Damaged → ⟦<SqlKeep<S> as Keep>⟧.clean self.new
            → ¬ ∥ ⟦<SqlKeep<S> as Keep>⟧.listed self.old ∥₁ }
        ensures same { ⟦<SqlKeep<S> as Keep>⟧.clean self.new
            → ⟦<SqlKeep<S> as Keep>⟧.content self.new ≡ ⟦<SqlKeep<S> as Keep>⟧.content self.old }
        ensures stays { ⟦<SqlKeep<S> as Keep>⟧.clean self.new → ∥ ⟦<SqlKeep<S> as Keep>⟧.listed self.old ∥₁
            → ∥ ⟦<SqlKeep<S> as Keep>⟧.listed self.new ∥₁ }
        ensures clean { ⟦<SqlKeep<S> as Keep>⟧.clean self.new → ⟦<SqlKeep<S> as Keep>⟧.clean self.old }
        ensures device { IsCounted (result ≡ Err KeepFault.Device) self.old.1.0 self.new.1.0 }
        ensures loaded { self.new.1.2 ≡ one_more self.old.1.2 }
        ensures alone { self.new.1.1 ≡ self.old.1.1 }
    {
        self.loads = self.loads.saturating_add(1);
        match read_records(alloc, &mut self.conn) {
            Ok(Some(records)) => Ok(records),
            Ok(None) => Err(KeepFault::Damaged),
            Err(error) => Err(keep_fault_of(&mut self.failures, error)),
        }
    }

    /// Commits a change, and keeps whether the tables are alone. After an error the database is as before, whatever
    /// else is in it.
    fn commit(&mut self, change: &Change<'_>) -> Result<(), KeepFault>
        requires listed { ⟦<SqlKeep<S> as Keep>⟧.clean self.old → ∥ ⟦<SqlKeep<S> as Keep>⟧.listed self.old ∥₁ }
        requires allowed { ⟦<SqlKeep<S> as Keep>⟧.clean self.old
            → IsAllowed (shown_change change.now) (⟦<SqlKeep<S> as Keep>⟧.content self.old) }
        ensures made { OnOk result (⟦<SqlKeep<S> as Keep>⟧.clean self.new → ⟦<SqlKeep<S> as Keep>⟧.content self.new
            ≡ after (shown_change change.now) (⟦<SqlKeep<S> as Keep>⟧.content self.old)) }
        ensures refused { OnErr result (⟦<SqlKeep<S> as Keep>⟧.clean self.new
            → ⟦<SqlKeep<S> as Keep>⟧.content self.new ≡ ⟦<SqlKeep<S> as Keep>⟧.content self.old) }
        ensures listed { ⟦<SqlKeep<S> as Keep>⟧.clean self.new → ∥ ⟦<SqlKeep<S> as Keep>⟧.listed self.new ∥₁ }
        ensures clean { ⟦<SqlKeep<S> as Keep>⟧.clean self.new → ⟦<SqlKeep<S> as Keep>⟧.clean self.old }
        ensures undamaged { ¬ (IsErrOf result KeepFault.Damaged) }
        ensures unloaded { self.new.1.2 ≡ self.old.1.2 }
        ensures device { IsCounted (result ≡ Err KeepFault.Device) self.old.1.0 self.new.1.0 }
        ensures alone { self.new.1.1 ≡ self.old.1.1 }
        ensures neither { IsLive (state S.Store self.new.0)
            → OnErr result ((state S.Store self.new.0).now ≡ (state S.Store self.old.0).now) }
    {
        self.make(change)
    }
}

impl<S: Alter + Drop> SqlKeep<S> {
    ghost use Rattle.std.specs.Prelude.{ℕ, Err, IsErrOf, IsTrue, OnErr, OnOk};
    ghost use Rattle.feed_model.specs.Change.{after, IsAllowedWithin};
    ghost use Rattle.feed_keep.specs.Cause.{IsCounted};
    ghost use Rattle.feed_keep.specs.Shown.{shown_change};
    ghost use Rattle.sqlite.specs.Held.{state};
    ghost use Rattle.feed_store_model.specs.Live.{IsLive};

    // Commits a change as `commit` does, however many records there may be.
    pub(crate) fn make(&mut self, change: &Change<'_>) -> Result<(), KeepFault>
        requires listed { ⟦<SqlKeep<S> as Keep>⟧.clean self.old → ∥ ⟦<SqlKeep<S> as Keep>⟧.listed self.old ∥₁ }
        requires allowed { ⟦<SqlKeep<S> as Keep>⟧.clean self.old → (most : ℕ)
            × IsAllowedWithin most (shown_change change.now) (⟦<SqlKeep<S> as Keep>⟧.content self.old) }
        ensures made { OnOk result (⟦<SqlKeep<S> as Keep>⟧.clean self.new → ⟦<SqlKeep<S> as Keep>⟧.content self.new
            ≡ after (shown_change change.now) (⟦<SqlKeep<S> as Keep>⟧.content self.old)) }
        ensures refused { OnErr result (⟦<SqlKeep<S> as Keep>⟧.clean self.new
            → ⟦<SqlKeep<S> as Keep>⟧.content self.new ≡ ⟦<SqlKeep<S> as Keep>⟧.content self.old) }
        ensures listed { ⟦<SqlKeep<S> as Keep>⟧.clean self.new → ∥ ⟦<SqlKeep<S> as Keep>⟧.listed self.new ∥₁ }
        ensures clean { ⟦<SqlKeep<S> as Keep>⟧.clean self.new → ⟦<SqlKeep<S> as Keep>⟧.clean self.old }
        ensures undamaged { ¬ (IsErrOf result KeepFault.Damaged) }
        ensures unloaded { self.new.1.2 ≡ self.old.1.2 }
        ensures device { IsCounted (result ≡ Err KeepFault.Device) self.old.1.0 self.new.1.0 }
        ensures alone { self.new.1.1 ≡ self.old.1.1 }
        ensures neither { IsLive (state S.Store self.new.0)
            → OnErr result ((state S.Store self.new.0).now ≡ (state S.Store self.old.0).now) }
    {
        match commit_change(&mut self.conn, change) {
            Ok(()) => Ok(()),
            Err(error) => Err(keep_fault_of(&mut self.failures, error)),
        }
    }
}

impl SqlKeep<MemStore> {
    ghost use Rattle.std.specs.Prelude.{◌≢◌};
    ghost use Rattle.sqlite.specs.Held.{state};
    ghost use Rattle.sqlite.specs.Steps.{over_memory};
    ghost use Rattle.feed_store_write.specs.Effects.{IsBlank};

    /// Opens an empty keeper in memory. It is clean, and stays so.
    pub fn open_memory(alloc: Global) -> Result<SqlKeep<MemStore>, StoreFault>
        ensures clean { IfOk result (λ keep. ⟦<SqlKeep<MemStore> as Keep>⟧.clean keep) }
        ensures blank { IfOk result (λ keep. IsBlank (state over_memory keep.0).now) }
        ensures fresh { IfOk result (λ keep. keep.1.0 ≡ 0) }
        ensures cause { IfErr result (λ fault. fault ≢ StoreFault.NotOurs) }
    {
        let Ok(conn) = Connection::open_in_memory(alloc) else {
            return Err(StoreFault::Memory);
        };
        match SqlKeep::adopt(alloc, conn) {
            Ok(keep) => Ok(keep),
            Err(fault) => Err(fault.cause),
        }
    }
}

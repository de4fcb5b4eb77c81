//! The SQL store of a feed that has room for 4,096 records.
ghost use Rattle.std.specs.Prelude.{◌≡◌};

use crate::sql_keep::SqlKeep;
use feed_keep::{Capacity, Change, Keep, Record};
use feed_model::KeepFault;
use sqlite::Alter;
use std::alloc::Global;
use std::marker::Model;

/// A keeper over SQL that has room for 4,096 records. Contracts see it as the `SqlKeep` that it is made of, so
/// everything else is as it is there, and a database may be opened by either while it has at most 256 records.
#[derive(Drop)]
pub struct LargeSqlKeep<S: Alter> {
    store: SqlKeep<S>,
}

impl<S: Alter> Model for LargeSqlKeep<S> {
    ghost use Rattle.std.specs.Prelude.{ℕ, Bool, refl};
    ghost use Rattle.std.specs.Coded.{code_by, coded×, coded_ℕ, coded_bool};
    ghost use Rattle.sqlite.specs.Held.{Held, held_code};

    ghost Value = { Held S × (ℕ × Bool × ℕ) };

    ghost coded = { coded× (held_code S.code) (code_by (ℕ × (Bool × ℕ)) (coded× coded_ℕ (coded× coded_bool coded_ℕ))
        (λ s. (s.0, (s.1, s.2))) (λ s. (s.0, s.1.0, s.1.1)) (λ _. refl)) };

    ghost view = { λ k. k.store };
}

impl<S: Alter> LargeSqlKeep<S> {
    /// Gives a keeper room for 4,096 records.
    pub fn of(store: SqlKeep<S>) -> LargeSqlKeep<S>
        ensures { result ≡ store }
    {
        LargeSqlKeep { store }
    }

    /// Returns the keeper that it is made of.
    pub fn into_store(self) -> SqlKeep<S>
        ensures { result ≡ self }
    {
        let LargeSqlKeep { store } = self;
        store
    }
}

impl<S: Alter + Drop> Keep for LargeSqlKeep<S> {
    ghost content = { ⟦<SqlKeep<S> as Keep>⟧.content };

    ghost clean = { ⟦<SqlKeep<S> as Keep>⟧.clean };

    ghost listed = { ⟦<SqlKeep<S> as Keep>⟧.listed };

    ghost failed = { ⟦<SqlKeep<S> as Keep>⟧.failed };

    ghost loads = { ⟦<SqlKeep<S> as Keep>⟧.loads };

    ghost more = { 3840 };

    fn failures(&self) -> u64 {
        self.store.failures()
    }

    fn load(&mut self, alloc: Global) -> Result<Vec<Record>, KeepFault> {
        self.store.load(alloc)
    }

    fn commit(&mut self, change: &Change<'_>) -> Result<(), KeepFault> {
        self.store.make(change)
    }
}

impl<S: Alter + Drop> Capacity for LargeSqlKeep<S> {
    fn capacity(&self) -> usize {
        feed_keep::LARGE_CAPACITY
    }
}

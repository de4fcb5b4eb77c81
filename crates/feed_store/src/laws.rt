//! Laws on the upgrade of a database and on keepers in memory, stated as the contracts of functions with empty bodies.
ghost use Rattle.std.specs.Prelude.{ℕ, Bool, IsTrue};
ghost use Rattle.feed_model.specs.Content.{IsContent, within};
ghost use Rattle.feed_model.specs.Reply.{max_held};
ghost use Rattle.feed_model.specs.Earlier.{IsEarlierContent, without_refused};
ghost use Rattle.feed_model.specs.History.{History};
ghost use Rattle.feed_store_model.specs.Tables.{HoldsReleases, stored_content, content_without_reasons};
ghost use Rattle.feed_store.specs.Upgraded.{IsUpgradedWithReasons};
ghost use Rattle.sqlite.specs.Effect.{Database};
ghost use Rattle.sqlite.specs.Held.{Held};
ghost use Rattle.sqlite_trees.specs.declared.memory.MemStore.{MemStore};

use crate::sql_keep::SqlKeep;
use feed_keep::Keep;
use feed_model::contents_move;
use sqlite::MemStore;

/// The content of an upgraded database is one of the same histories, without the offers that were refused as too large.
/// Reports and answers are then the same, by `reports_stay` and `answers_stay`.
pub fn histories_stay()
    ensures { (old new : Database) (h : History) → HoldsReleases old → IsEarlierContent (content_without_reasons old) h
        → IsUpgradedWithReasons old new → IsContent (within max_held (stored_content new)) (without_refused h) }
{
    contents_move();
}

/// A keeper in memory is clean if its tables are alone: no device can fail. `load` and `commit` keep both.
pub fn memory_stays_clean()
    ensures { (held : Held MemStore) (failures loads : ℕ) (alone : Bool) → IsTrue alone
        → ⟦<SqlKeep<MemStore> as Keep>⟧.clean (held, (failures, alone, loads)) }
{}

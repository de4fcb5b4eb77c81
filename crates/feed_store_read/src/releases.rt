//! Reads the releases of a database in the order of their names.
ghost use Rattle.std.specs.Prelude.{◌++◌, ◌∷◌, [], false, IfOk, List, MatchBool, MatchOption};
ghost use Rattle.sqlite.specs.Held.{state};
ghost use Rattle.sqlite.specs.State.{IsUnchanged};
ghost use Rattle.sqlite_value.specs.Order.{Row as Values};
ghost use Rattle.feed_store_model.specs.Live.{IsLive};
ghost use Rattle.feed_store_model.specs.Tables.{HoldsReleases, IsTabled, IsReleaseRow};
ghost use Rattle.feed_store_read.specs.Releases.{AreReleases, WritesNothing, ShowReleases};

use crate::release_row::release_in_row;
use feed_keep::Record;
use sqlite::{Alter, Connection, Error, ErrorCode, Row};
use std::alloc::Global;

/// Releases without their parts, and their rowids.
#[derive(Drop)]
pub struct Releases {
    pub ids: Vec<i64>,
    pub records: Vec<Record>,
}

/// Reads all releases, ordered by the texts of their names. Returns `None` if this product does not write such a row.
pub fn select_releases<S: Alter>(
    alloc: Global,
    conn: &mut Connection<S>,
) -> Result<Option<Releases>, Error>
    ensures leaves { WritesNothing (state S.Store conn.old) (state S.Store conn.new) }
    ensures read { IsLive (state S.Store conn.new) → IsTabled (state S.Store conn.old).now → IfOk result
        (λ found. IsUnchanged (state S.Store conn.old) (state S.Store conn.new)
        × MatchOption found (¬ (HoldsReleases (state S.Store conn.old).now))
        (AreReleases (state S.Store conn.old).now)) }
{
    let mut found = Releases {
        ids: Vec::new(alloc),
        records: Vec::new(alloc),
    };
    let mut rows = conn.query(
        "SELECT rowid, name, package, day, size, state FROM feed_release ORDER BY name",
        &[],
    )?;
    'rows: for _ in 0..u64::MAX {
        let Some(row) = rows.next()? else {
            return Ok(Some(found));
        };
        if !take_release(alloc, &mut found, row)? {
            return Ok(None);
        }
    }
    Err(Error::SqliteFailure(ErrorCode::TooBig))
}

// Adds the release of a row. Returns false if the row is invalid.
fn take_release(alloc: Global, found: &mut Releases, row: &Row) -> Result<bool, Error>
    ensures { IfOk result (λ taken. MatchBool taken
        ((rows : List Values) → ShowReleases rows found.old → ShowReleases (rows ++ row.now ∷ []) found.new)
        (¬ (IsReleaseRow row.now))) }
{
    let Some((id, record)) = release_in_row(alloc, row)? else {
        return Ok(false);
    };
    found.ids.push(id)?;
    found.records.push(record)?;
    Ok(true)
}

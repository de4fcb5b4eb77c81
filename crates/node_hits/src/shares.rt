//! The shares of releases among the rows that a query looks at.
ghost use Rattle.std.specs.Prelude.{◌≡◌, ◌≤◌, IfOk, length, min};
ghost use Rattle.node_hits.specs.Looks.{open_places};
ghost use Rattle.node_hits.specs.Shares.{equal_share};

use crate::hits::LibraryRelease;
use crate::row_places::place_count;
use feed_answer::Query;
use node_site::may_hold;
use std::alloc::{AllocError, Global};

/// The most rows that are looked at for a query, in all releases together, so that no query makes a response slow.
pub const ROW_LIMIT: usize = 5_000;

/// The shares of each release, so that no list hides the hits of another.
#[derive(Clone, Copy)]
pub struct Shares {
    /// The most rows of a release that are looked at.
    pub rows: usize,
    /// The most that the texts of its hits count as, by 250 bytes.
    pub texts: usize,
}

/// Returns an equal share of the rows that are looked at, and of texts, for each of so many releases: at least 1.
pub fn equal_share(releases: usize) -> usize
    ensures value { result ≡ equal_share releases }
    ensures small { result ≤ 5000 }
{
    (ROW_LIMIT / releases.max(1)).max(1)
}

/// Returns how many rows of a release a query may look at, up to a limit: those that have one of its identifiers, and
/// none if the library has nothing of the package.
///
/// # Errors
///
/// Running out of memory.
pub fn row_count(
    alloc: Global,
    release: &LibraryRelease<'_>,
    query: &Query,
    limit: usize,
) -> Result<usize, AllocError>
    ensures { IfOk result (λ count. count
        ≡ min limit (length (open_places release.now.site.now release.now.name.now query.now
        release.now.holdings.now.rows))) }
{
    let count = place_count(alloc, release.holdings, query, limit)?;
    if count == 0 || may_hold(release.site, release.name.package()) {
        Ok(count)
    } else {
        Ok(0)
    }
}

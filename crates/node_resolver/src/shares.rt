//! The shares of the active releases among the rows that a query looks at.
ghost use Rattle.std.specs.Prelude.{◌≡◌, ◌≤◌, IfOk, false, None, Some, count_by, if◌then◌else◌, length, min};
ghost use Rattle.std.specs.Prelude.{nat_le, nat_lt, sum};
ghost use Rattle.node_hits.specs.Looks.{open_places};
ghost use Rattle.node_hits.specs.Shares.{having_rows, left_by, row_limit, shares_of};
ghost use Rattle.node_resolver.specs.Answers.{row_counts, shares_in, sited_in};

use crate::context::Context;
use feed_answer::Query;
use feed_releases::ActiveRelease;
use node_hits::{LibraryRelease, Lookup, ROW_LIMIT, Shares, equal_share};
use std::alloc::{AllocError, Global};

// Returns how many rows of a release a query may look at, up to a limit.
fn row_count(
    alloc: Global,
    context: &Context<'_>,
    active: &ActiveRelease<'_>,
    query: &Query,
    limit: usize,
) -> Result<usize, AllocError>
    ensures { IfOk result (λ count. count
        ≡ min limit
        (length (open_places context.now.site.library active.now.name query.now active.now.holdings.rows))) }
{
    let release = LibraryRelease {
        site: context.library(),
        today: context.today,
        name: active.name(),
        holdings: active.holdings(),
    };
    node_hits::row_count(alloc, &release, query, limit)
}

// Returns how many releases have rows, if all together have no more than are looked at.
fn having_few(
    alloc: Global,
    context: &Context<'_>,
    query: &Query,
) -> Result<Option<usize>, AllocError>
    ensures { IfOk result (λ releases. releases
        ≡ (if nat_le (sum (row_counts context.now.site.library query.now context.now.actives.actives)) row_limit
        then Some (having_rows (row_counts context.now.site.library query.now context.now.actives.actives))
        else None)) }
{
    let (mut rows, mut releases) = (0, 0);
    for active in context.actives {
        let more = row_count(alloc, context, active, query, ROW_LIMIT + 1)?;
        if more > ROW_LIMIT - rows {
            return Ok(None);
        }
        rows += more;
        releases += usize::from(more > 0);
    }
    Ok(Some(releases))
}

// Returns how many releases have rows.
fn having_rows(alloc: Global, context: &Context<'_>, query: &Query) -> Result<usize, AllocError>
    ensures { IfOk result (λ releases. releases
        ≡ having_rows (row_counts context.now.site.library query.now context.now.actives.actives)) }
{
    let mut releases = 0;
    for active in context.actives {
        releases += row_count(alloc, context, active, query, 1)?;
    }
    Ok(releases)
}

// Returns what releases leave of a share each, and how many have more rows.
fn left_by(
    alloc: Global,
    context: &Context<'_>,
    query: &Query,
    share: usize,
) -> Result<(usize, usize), AllocError>
    requires { share ≤ 5000 }
    ensures left { IfOk result (λ rest. rest.0
        ≡ left_by share (row_counts context.now.site.library query.now context.now.actives.actives)) }
    ensures above { IfOk result (λ rest. rest.1
        ≡ count_by (λ rows. nat_lt share rows)
        (row_counts context.now.site.library query.now context.now.actives.actives)) }
    ensures small { IfOk result (λ rest. rest.0 ≤ 5000) }
{
    let (mut left, mut above) = (ROW_LIMIT, 0);
    for active in context.actives {
        let rows = row_count(alloc, context, active, query, share + 1)?;
        left = left.saturating_sub(rows.min(share));
        above += usize::from(rows > share);
    }
    Ok((left, above))
}

// Returns the shares of releases that have more rows than are looked at.
fn crowded_shares(alloc: Global, context: &Context<'_>, query: &Query) -> Result<Shares, AllocError>
    requires { nat_le (sum (row_counts context.now.site.library query.now context.now.actives.actives)) row_limit
        ≡ false }
    ensures value { IfOk result (λ shares. shares
        ≡ shares_of (row_counts context.now.site.library query.now context.now.actives.actives)) }
    ensures small { IfOk result (λ shares. shares.rows ≤ 10000) }
{
    let texts = equal_share(having_rows(alloc, context, query)?);
    let (left, above) = left_by(alloc, context, query, texts)?;
    let rows = texts + left / above.max(1);
    Ok(Shares { rows, texts })
}

/// Returns the shares of the active releases among the rows that a query looks at.
pub(crate) fn shares_among(
    alloc: Global,
    context: &Context<'_>,
    lookup: &Lookup<'_>,
) -> Result<Shares, AllocError>
    ensures value { IfOk result (λ shares. shares ≡ shares_in lookup.now (sited_in context.now)) }
    ensures small { IfOk result (λ shares. shares.rows ≤ 10000) }
{
    let query = lookup.query();
    match having_few(alloc, context, query)? {
        Some(releases) => Ok(Shares {
            rows: ROW_LIMIT,
            texts: equal_share(releases),
        }),
        None => crowded_shares(alloc, context, query),
    }
}

//! The hits of the highest ranks.
ghost use Rattle.std.specs.Prelude.{◌≡◌, ◌-◌, ◌≤◌, [], OnOk, length};
ghost use Rattle.node_hits.specs.Tallies.{first_within, shown_limit, text_limit, text_size};
ghost use Rattle.node_hits.specs.Tallying.{IsPlaceOf, IsRanked, kept_above, with_top};

use crate::hits::ReleaseHit;
use crate::ranked_hit::RankedHit;
use crate::shown::{SHOWN_LIMIT, first_within};
use std::alloc::{AllocError, Global};
use std::marker::Model;

/// The hits of the highest ranks, in the order of their ranks, and of equal ranks in that of their places.
#[derive(Drop)]
pub(crate) struct Top<'a> {
    hits: Vec<RankedHit<'a>>,
}

impl<'a> Model for Top<'a> {
    ghost use Rattle.std.specs.Prelude.{◌≤◌, List, length};
    ghost use Rattle.node_hits.specs.Hits.{ReleaseHitValue};
    ghost use Rattle.node_hits.specs.Tallies.{shown_limit};
    ghost use Rattle.node_hits.specs.Tallying.{IsRanked};

    ghost Value = { List ReleaseHitValue };

    ghost view = { λ t. t.hits.items };

    ghost invariant = { λ t. IsRanked t.hits.items × (length t.hits.items ≤ shown_limit) };
}

// The place behind the last hit that does not rank below a rank.
fn place_of(hits: &[RankedHit<'_>], rank: u32) -> usize
    requires { IsRanked hits.now }
    ensures split { IsPlaceOf rank hits.now result }
    ensures value { result ≡ length (kept_above rank hits.now) }
    ensures bound { result ≤ length hits.now }
{
    hits.partition_point(|found| found.rank() >= rank)
}

impl<'a> Top<'a> {
    pub(crate) fn new(alloc: Global) -> Top<'a>
        ensures { result ≡ [] }
    {
        Top {
            hits: Vec::new(alloc),
        }
    }

    /// Returns the hits, as far as their texts are within the limit of a response.
    pub(crate) fn hits(&self) -> &[RankedHit<'a>]
        ensures { result.now ≡ first_within shown_limit text_limit self.now }
    {
        first_within(&self.hits)
    }

    /// Adds a hit behind the last one that does not rank below it, if it is then among the first 1,000. Its texts leave
    /// this many of the bytes of a response.
    pub(crate) fn add(
        &mut self,
        alloc: Global,
        found: ReleaseHit<'a>,
        left: u32,
    ) -> Result<(), AllocError>
        requires { left ≡ text_limit - text_size found }
        ensures { OnOk result (self.new ≡ with_top self.old found.entry) }
    {
        let place = place_of(&self.hits, found.rank());
        if place >= SHOWN_LIMIT {
            return Ok(());
        }
        let ranked = RankedHit::new(alloc, found, left)?;
        self.hits.insert(place, ranked)?;
        self.hits.truncate(SHOWN_LIMIT);
        Ok(())
    }
}

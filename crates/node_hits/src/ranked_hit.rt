//! A hit with its rank and the size of its texts, in few bytes.
ghost use Rattle.std.specs.Prelude.{◌≡◌, ◌-◌, ◌≤◌, IfOk};
ghost use Rattle.node_hits.specs.Hits.{rank_of};
ghost use Rattle.node_hits.specs.Tallies.{text_limit, text_size};

use crate::hits::ReleaseHit;
use crate::shown::bytes_beside;
use std::alloc::{AllocError, Global};
use std::marker::Model;

/// A hit behind its rank. It has few bytes, since a better hit moves all those of lower ranks.
#[derive(Drop)]
pub struct RankedHit<'a> {
    rank: u32,
    // How many bytes of a response its texts leave.
    left: u32,
    hit: Box<ReleaseHit<'a>>,
}

impl<'a> Model for RankedHit<'a> {
    ghost use Rattle.std.specs.Prelude.{◌≡◌, ◌-◌};
    ghost use Rattle.node_hits.specs.Hits.{ReleaseHitValue, rank_of};
    ghost use Rattle.node_hits.specs.Tallies.{text_limit, text_size};

    ghost Value = { ReleaseHitValue };

    ghost view = { λ r. r.hit.value };

    ghost invariant = { λ r. (r.rank ≡ rank_of r.hit.value) × (r.left ≡ text_limit - text_size r.hit.value) };
}

impl<'a> RankedHit<'a> {
    /// Returns a hit whose texts leave this many of the bytes of a response.
    pub(crate) fn new(
        alloc: Global,
        found: ReleaseHit<'a>,
        left: u32,
    ) -> Result<RankedHit<'a>, AllocError>
        requires { left ≡ text_limit - text_size found }
        ensures { IfOk result (λ ranked. ranked ≡ found.entry) }
    {
        let rank = found.rank();
        Ok(RankedHit {
            rank,
            left,
            hit: Box::new(alloc, found)?,
        })
    }

    /// Returns the hit.
    pub fn hit(&self) -> &ReleaseHit<'a>
        ensures { result.now ≡ self.now }
    {
        &self.hit
    }

    pub(crate) fn rank(&self) -> u32
        ensures { result ≡ rank_of self.now }
    {
        self.rank
    }

    /// Returns how many bytes are left after the texts of the hit, if a response has at most so many left before.
    pub(crate) fn bytes_after(&self, bytes: usize) -> usize
        requires { bytes ≤ text_limit }
        ensures { result ≡ bytes - text_size self.now }
    {
        bytes_beside(bytes, self.left)
    }
}

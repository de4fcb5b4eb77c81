//! The answer of a feed to a piece.
ghost use Rattle.std.specs.Prelude.{◌≡◌};

use crate::ahead::{Ahead, take_running};
use crate::feed::Feed;
use crate::release::Overlap;
use crate::releases::{drop_earlier, find, is_passed};
use feed_keep::Keep;
use feed_limits::PIECE_LIMIT;
use feed_model::{Refusal, Reply};
use feed_names::ReleaseName;

impl<K: Keep> Feed<K> {
    ghost use Rattle.std.specs.Prelude.{Some};
    ghost use Rattle.feed_model.specs.History.{Piece};
    ghost use Rattle.feed_model.specs.Content.{Record, record_of};
    ghost use Rattle.feed_model.specs.Parts.{Reaches};
    ghost use Rattle.feed_releases.specs.ReleaseValue.{IsPlaceOf, IsOverlapOf, content_of};
    ghost use Rattle.feed_releases.specs.Feeds.{IsAnsweredBy, releases_of};

    /// Answers a piece. The first case that holds decides.
    pub(crate) fn piece(
        &mut self,
        name: &ReleaseName,
        first: u64,
        total: Option<u64>,
        bytes: &[u8],
    ) -> Result<Reply, Refusal>
        ensures { IsAnsweredBy self.old self.new (Piece name.now first total bytes.now) result }
    {
        if bytes.is_empty() || bytes.len() > PIECE_LIMIT {
            return Err(Refusal::BadPiece);
        }
        if is_passed(&self.releases, name) {
            return Ok(Reply::Older);
        }
        let Some(at) = find(&self.releases, name) else {
            return Err(Refusal::Unknown);
        };
        let release = &self.releases[at];
        let size = release.size();
        if total.unwrap_or(size) != size {
            return Err(Refusal::WrongSize);
        }
        if first > size || (bytes.len() as u64) > size - first {
            return Err(Refusal::Outside);
        }
        match release.overlap(first, bytes) {
            Overlap::Conflict => Err(Refusal::Conflict),
            Overlap::Kept => Ok(Reply::Repeated),
            Overlap::New => self.take_in(name, at, first, total, bytes),
        }
    }

    // Stores the new bytes of a piece, which has some. Allocates before the commit only.
    fn take_in(
        &mut self,
        name: &ReleaseName,
        at: usize,
        first: u64,
        total: Option<u64>,
        bytes: &[u8],
    ) -> Result<Reply, Refusal>
        requires place { IsPlaceOf (releases_of self.old) name.now at }
        requires reaches { (r : Record) → record_of (content_of (releases_of self.old)) name.now ≡ Some r
            → Reaches (content_of (releases_of self.old)) name.now first total bytes.now r }
        requires new { (r : Record) → record_of (content_of (releases_of self.old)) name.now ≡ Some r
            → IsOverlapOf r first bytes.now Overlap.New }
        ensures { IsAnsweredBy self.old self.new (Piece name.now first total bytes.now) result }
    {
        let mut running = take_running(&mut self.ahead, at);
        let growth = self.releases[at].growth(self.alloc, &mut running, first, bytes)?;
        let reply = self.releases[at].grow(&mut self.keeper, growth)?;
        if let Reply::Activated = reply {
            // At most the releases that one switch removed wait to be freed.
            self.leftovers.clear();
            drop_earlier(&mut self.releases, &mut self.leftovers, name);
        } else {
            self.ahead = Ahead::of(at, running);
        }
        Ok(reply)
    }
}

//! The answer of a feed to an offer.
ghost use Rattle.std.specs.Prelude.{◌≡◌, ◌≤◌, ◌<◌, None, length};
ghost use Rattle.feed_model.specs.History.{Offered};
ghost use Rattle.feed_model.specs.Reply.{max_file};
ghost use Rattle.feed_model.specs.Content.{record_of};
ghost use Rattle.feed_model.specs.Change.{insert_record, new_record};

use crate::commit::commit;
use crate::feed::Feed;
use crate::release::Release;
use crate::releases::{find, is_passed, place_for};
use feed_kbart::BadFile;
use feed_keep::{Change, Keep};
use feed_limits::FILE_LIMIT;
use feed_model::{Refusal, Reply};
use feed_names::ReleaseName;

impl<K: Keep> Feed<K> {
    ghost use Rattle.std.specs.Prelude.{◌⊎◌, Err, OnOk, OnErr, IfErr};
    ghost use Rattle.feed_keep.specs.Cause.{IsCounted};
    ghost use Rattle.feed_releases.specs.Feeds.{IsAnsweredBy, keeper_of, most_of, releases_of};
    ghost use Rattle.feed_releases.specs.ReleaseValue.{content_of};

    /// Answers an offer. The first case that holds decides.
    pub(crate) fn offer(&mut self, name: &ReleaseName, size: u64) -> Result<Reply, Refusal>
        ensures { IsAnsweredBy self.old self.new (Offered name.now size) result }
    {
        if size > FILE_LIMIT as u64 {
            return Err(Refusal::TooLarge);
        }
        if is_passed(&self.releases, name) {
            return Ok(Reply::Older);
        }
        if let Some(at) = find(&self.releases, name) {
            return if self.releases[at].size() == size {
                Ok(Reply::Known)
            } else {
                Err(Refusal::WrongSize)
            };
        }
        if self.releases.len() >= self.most {
            return Err(Refusal::Full);
        }
        self.add(name, size)?;
        Ok(if size == 0 {
            Reply::Broken(BadFile::NoHeader)
        } else {
            Reply::Noted
        })
    }

    // Records a release that is not recorded yet. Allocates before the commit only.
    fn add(&mut self, name: &ReleaseName, size: u64) -> Result<(), Refusal>
        requires absent { record_of (content_of (releases_of self.old)) name.now ≡ None }
        requires room { length (releases_of self.old) < most_of self.old }
        requires limit { size ≤ max_file }
        ensures added { OnOk result (content_of (releases_of self.new) ≡ insert_record (new_record name.now size)
            (content_of (releases_of self.old))) }
        ensures room { most_of self.new ≡ most_of self.old }
        ensures same { OnErr result (releases_of self.new ≡ releases_of self.old) }
        ensures clean { K.clean (keeper_of self.new) → K.clean (keeper_of self.old) }
        ensures fault { IfErr result (λ fault. (fault ≡ Refusal.Memory) ⊎ (fault ≡ Refusal.Device)) }
        ensures counted { IsCounted (result ≡ Err Refusal.Device) (K.failed (keeper_of self.old))
            (K.failed (keeper_of self.new)) }
        ensures unloaded { K.loads (keeper_of self.new) ≡ K.loads (keeper_of self.old) }
    {
        let Ok(()) = self.releases.reserve(1) else {
            return Err(Refusal::Memory);
        };
        let Ok(kept_name) = name.try_clone() else {
            return Err(Refusal::Memory);
        };
        // The places of the releases change.
        self.ahead = None;
        let at = place_for(&self.releases, name);
        let release = Release::new(self.alloc, kept_name, size);
        commit(&mut self.keeper, &Change::Add { name, size })?;
        match self.releases.insert(at, release) {
            Ok(()) => Ok(()),
            Err(_) => unreachable!(),
        }
    }
}

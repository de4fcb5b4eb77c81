//! The feed of a node: it handles events, reports active releases and answers queries.
ghost use Rattle.std.specs.Prelude.{◌≡◌, ◌≤◌, length};
ghost use Rattle.feed_model.specs.Reply.{max_held};
ghost use Rattle.feed_keep.specs.Capacity.{capacity_with};
ghost use Rattle.feed_releases.specs.ReleaseValue.{content_of};
ghost use Rattle.feed_releases.specs.Ahead.{IsAhead};

use crate::actives::{self, ActiveRelease, actives_of};
use crate::ahead::Ahead;
use crate::leftovers::{Leftover, free_portion};
use crate::release::Release;
use crate::releases::{active_of, find};
use crate::statuses::{ReleaseStatus, statuses_of};
use feed_answer::{Answer, Query, answer};
use feed_kbart::BadFile;
use feed_keep::Keep;
use feed_limits::RELEASE_LIMIT;
use feed_model::{KeepFault, Refusal, Reply};
use feed_names::ReleaseName;
pub use opening::{Opening, OpeningStep};
use std::alloc::{AllocError, Global};
use thiserror::Error;

mod offer;
mod opening;
mod piece;
mod reopen;

/// Why a feed could not be opened, with the unchanged keeper.
#[derive(Drop)]
pub struct OpenFault<K: Drop> {
    pub cause: KeepFault,
    pub keeper: K,
}

/// Why a feed gives no answer.
#[derive(Clone, Copy, Debug, PartialEq, Eq, Error)]
pub enum AnswerFault {
    /// The package has no complete and good release.
    #[error("NoRelease")]
    NoRelease,
    /// Memory ran out.
    #[error("Memory")]
    Memory,
}

/// The point of an event at which a feed stops.
#[derive(Clone, Copy, Debug, PartialEq, Eq)]
pub enum Point {
    /// Before its commit.
    Before,
    /// After its commit, before its answer.
    After,
}

/// The feed of a node over its keeper.
#[derive(Drop)]
pub struct Feed<K: Keep> {
    alloc: Global,
    keeper: K,
    // The most releases that it may record. Its keeper has room for as many.
    most: usize,
    releases: Vec<Release>,
    // The release whose file is read ahead. It changes nothing that a feed answers.
    ahead: Option<Ahead>,
    // The remains of the releases that the last switch removed. They are freed in portions.
    leftovers: Vec<Leftover>,
    ghost mirrors: { K.clean keeper → K.content keeper ≡ content_of releases.items },
    ghost listed: { K.clean keeper → ∥ K.listed keeper ∥₁ },
    ghost few: { length releases.items ≤ most },
    ghost least: { max_held ≤ most },
    ghost room: { most ≤ capacity_with K.more },
    ghost reads: { IsAhead releases.items ahead },
}

impl<K: Keep> Feed<K> {
    ghost use Rattle.std.specs.Prelude.{◌≢◌, ◌↔◌, ◌<◌, ◌∷◌, []};
    ghost use Rattle.std.specs.Prelude.{All, Err, map, IfOk, IfErr, OnErr, IsTrue, option_map};
    ghost use Rattle.std.specs.List.{Contains};
    ghost use Rattle.feed_model.specs.History.{Answer as event_answer, History, Reports};
    ghost use Rattle.feed_model.specs.Reply.{IsRightWith, history_after};
    ghost use Rattle.feed_model.specs.Sound.{IsSound};
    ghost use Rattle.feed_model.specs.Content.{IsContent, within};
    ghost use Rattle.feed_model.specs.Handles.{Handles};
    ghost use Rattle.feed_releases.specs.Actives.{actives_of, AreInOrder, AreReported, IsReportedFor};
    ghost use Rattle.feed_releases.specs.Answered.{IsAnswered};
    ghost use Rattle.feed_releases.specs.NextRange.{IsNextRange};
    ghost use Rattle.feed_releases.specs.Reason.{HasReason};
    ghost use Rattle.feed_releases.specs.Events.{event_of};
    ghost use Rattle.feed_keep.specs.Cause.{HasFailedSince, IsCounted};
    ghost use Rattle.feed_keep.specs.Loads.{one_more};
    ghost use Rattle.feed_releases.specs.Feeds.{CommitsNothing, IsAnsweredBy};
    ghost use Rattle.feed_releases.specs.Feeds.{keeper_of, most_of, recorded, releases_of};
    ghost use Rattle.feed_releases.specs.Leftovers.{left_of_all};
    ghost use Rattle.feed_releases.specs.Work.{unread, work_left};
    ghost use Rattle.feed_releases.specs.Statuses.{status_of};

    /// Opens a feed on the records of a keeper. Validates and reads the file of each complete release.
    ///
    /// # Errors
    ///
    /// `Damaged` if no feed can have produced the records: a name appears twice; there are more than 256 releases; a
    /// size is above the limit of a file; parts are empty, above the limit of a piece, out of order or outside the
    /// file; a release has a later active one in its package; or a state or a reason does not match its file.
    pub fn open(alloc: Global, keeper: K) -> Result<Feed<K>, OpenFault<K>>
        ensures content { IfOk result (λ feed. K.clean (keeper_of feed) → recorded feed
            ≡ within max_held (K.content keeper)) }
        ensures most { IfOk result (λ feed. most_of feed ≡ max_held) }
        ensures sound { IfOk result (λ feed. IsSound (recorded feed)) }
        ensures clean { IfOk result (λ feed. K.clean (keeper_of feed) → K.clean keeper) }
        ensures counted { IfOk result (λ feed. K.failed (keeper_of feed) ≡ K.failed keeper) }
        ensures loaded { IfOk result (λ feed. K.loads (keeper_of feed) ≡ one_more (K.loads keeper)) }
        ensures damaged { IfErr result (λ fault. fault.cause ≡ KeepFault.Damaged → K.clean fault.keeper
            → ∥ K.listed keeper ∥₁ → ¬ (IsSound (within max_held (K.content keeper)))) }
        ensures legal { IfErr result (λ fault. K.clean fault.keeper → ∥ K.listed keeper ∥₁ → (h : History)
            → IsContent (within max_held (K.content keeper)) h → fault.cause ≢ KeepFault.Damaged) }
        ensures kept { IfErr result (λ fault. K.clean fault.keeper → K.content fault.keeper ≡ K.content keeper) }
        ensures kept_listed { IfErr result (λ fault. K.clean fault.keeper → ∥ K.listed keeper ∥₁
            → ∥ K.listed fault.keeper ∥₁) }
        ensures kept_clean { IfErr result (λ fault. K.clean fault.keeper → K.clean keeper) }
        ensures device { IfErr result (λ fault. IsCounted (fault.cause ≡ KeepFault.Device) (K.failed keeper)
            (K.failed fault.keeper)) }
        ensures kept_loaded { IfErr result (λ fault. K.loads fault.keeper ≡ one_more (K.loads keeper)) }
    {
        Feed::open_within(alloc, keeper, RELEASE_LIMIT)
    }

    /// Handles one event. The answer is right after every history that the feed may have, and the feed then has that
    /// history with the event and the answer added. After a refusal, and after a reply without new bytes, the feed is
    /// as before. It answers `Full` only if it already has the most releases that it may record.
    pub fn handle(&mut self, event: &Event<'_>) -> Result<Reply, Refusal>
        ensures { IsAnsweredBy self.old self.new (event_of event.now) result }
    {
        match event {
            Event::Offered { name, size } => self.offer(name, *size),
            Event::Piece {
                name,
                first,
                total,
                bytes,
            } => self.piece(name, *first, *total, bytes),
            Event::Lost { name: _ } => Ok(Reply::Nothing),
        }
    }

    /// Handles the events in order. Each answer is right after the history and the answers before it. If there is no
    /// memory for the list of answers, the feed has handled no event.
    pub fn run(&mut self, events: &[Event<'_>]) -> Result<Vec<Result<Reply, Refusal>>, AllocError>
        ensures right { IfOk result (λ answers. (h : History) → IsContent (recorded self.old) h
            → IsContent (recorded self.new) (history_after h (map event_of events.now) answers.items)) }
        ensures count { IfOk result (λ answers. length answers.items ≡ length events.now) }
        ensures clean { K.clean (keeper_of self.new) → K.clean (keeper_of self.old) }
        ensures counted { K.failed (keeper_of self.old) ≤ K.failed (keeper_of self.new) }
        ensures device { IfOk result (λ answers. Contains answers.items (Err Refusal.Device)
            → HasFailedSince (K.failed (keeper_of self.old)) (K.failed (keeper_of self.new))) }
        ensures unloaded { K.loads (keeper_of self.new) ≡ K.loads (keeper_of self.old) }
        ensures err { OnErr result (self.new ≡ self.old) }
    {
        let mut answers = Vec::with_capacity(self.alloc, events.len())?;
        for event in events {
            answers.push_reserved(self.handle(event));
        }
        Ok(answers)
    }

    /// Does some of the work that no answer waits for. It frees a portion of the releases that the last switch removed.
    /// Once they are freed, it reads ahead in the release that took a piece last, at most 131,072 of its stored bytes.
    /// So its last piece leaves little to check. Returns whether there is more to do. Each answer is the one without
    /// this call.
    pub fn catch_up(&mut self) -> bool
        ensures releases { releases_of self.new ≡ releases_of self.old }
        ensures room { most_of self.new ≡ most_of self.old }
        ensures keeper { keeper_of self.new ≡ keeper_of self.old }
        ensures more { IsTrue result ↔ (0 < work_left self.new) }
        ensures less { IsTrue result → work_left self.new < work_left self.old }
    {
        if self.leftovers.is_empty() {
            self.read_ahead();
        } else {
            free_portion(&mut self.leftovers);
        }
        self.has_work()
    }

    fn has_work(&self) -> bool
        ensures { IsTrue result ↔ (0 < work_left self.now) }
    {
        if !self.leftovers.is_empty() {
            return true;
        }
        match &self.ahead {
            Some(ahead) => self.releases[ahead.at].has_more(&ahead.running),
            None => false,
        }
    }

    // Reads ahead at most a window. If memory runs out, nothing is read ahead any more.
    fn read_ahead(&mut self)
        ensures releases { releases_of self.new ≡ releases_of self.old }
        ensures room { most_of self.new ≡ most_of self.old }
        ensures keeper { keeper_of self.new ≡ keeper_of self.old }
        ensures leftovers { left_of_all self.new.leftovers.items ≡ left_of_all self.old.leftovers.items }
        ensures less { 0 < unread self.new → unread self.new < unread self.old }
    {
        let Some(Ahead { at, running }) = self.ahead.take() else {
            return;
        };
        let Some(running) = self.releases[at].read_on(self.alloc, running) else {
            return;
        };
        self.ahead = Some(Ahead { at, running });
    }

    /// Returns the active release of a package: the complete and good one with the latest day.
    pub fn report(&self, package: &[u8]) -> Option<&ReleaseName>
        ensures { (h : History) → IsContent (recorded self.now) h
            → Reports h «package».now (option_map (λ name. name.now) result) }
    {
        match active_of(&self.releases, package) {
            Some(at) => Some(self.releases[at].name()),
            None => None,
        }
    }

    /// Returns the active release of a package, with the holdings of its complete file. Does not allocate.
    pub fn active(&self, package: &[u8]) -> Option<ActiveRelease<'_>>
        ensures { (h : History) → IsContent (recorded self.now) h → IsReportedFor h «package».now result }
    {
        match active_of(&self.releases, package) {
            Some(at) => actives::active_of(&self.releases[at]),
            None => None,
        }
    }

    /// Returns the first and the last place of the first missing range of a release's file, at most `max` places.
    /// Returns `None` if the release is not recorded, is complete, or is older than the active one.
    pub fn next_range(&self, name: &ReleaseName, max: u64) -> Option<(u64, u64)>
        ensures { (h : History) → IsContent (recorded self.now) h → IsNextRange h name.now max result }
    {
        match find(&self.releases, name) {
            Some(at) => self.releases[at].next_range(max),
            None => None,
        }
    }

    /// Returns why a release is broken. Returns `None` if the release is not recorded, is not complete, is good, or is
    /// older than the active one. Does not allocate.
    pub fn reason(&self, name: &ReleaseName) -> Option<BadFile>
        ensures { (h : History) → IsContent (recorded self.now) h → HasReason h name.now result }
    {
        match find(&self.releases, name) {
            Some(at) => self.releases[at].reason(),
            None => None,
        }
    }

    /// Returns the rows of a package's active release that match a query, from its complete file.
    pub fn answer(&self, package: &[u8], query: &Query) -> Result<Answer<'_>, AnswerFault>
        ensures { (h : History) → IsContent (recorded self.now) h → IsAnswered h «package».now query.now result }
    {
        let Some(active) = self.active(package) else {
            return Err(AnswerFault::NoRelease);
        };
        match answer(self.alloc, active.holdings(), query) {
            Ok(answer) => Ok(answer),
            Err(_) => Err(AnswerFault::Memory),
        }
    }

    /// Returns the active releases, ordered by package.
    pub fn actives(&self) -> Result<Vec<ActiveRelease<'_>>, AllocError>
        ensures value { IfOk result (λ actives. actives.items ≡ actives_of (releases_of self.now)) }
        ensures order { IfOk result (λ actives. AreInOrder actives.items) }
        ensures reported { IfOk result (λ actives. (h : History) → IsContent (recorded self.now) h
            → AreReported h actives.items) }
    {
        actives_of(self.alloc, &self.releases)
    }

    /// Returns the status of each recorded release, in the order in which the feed recorded them.
    pub fn statuses(&self) -> Result<Vec<ReleaseStatus<'_>>, AllocError>
        ensures { IfOk result (λ statuses. statuses.items ≡ map status_of (recorded self.now).content) }
    {
        statuses_of(self.alloc, &self.releases)
    }

    /// Returns the most releases that it may record: from 256 to the room of its keeper.
    pub fn most(&self) -> usize
        ensures value { result ≡ most_of self.now }
        ensures least { max_held ≤ result }
        ensures room { result ≤ capacity_with K.more }
    {
        self.most
    }

    /// Returns whether no release is recorded.
    pub fn is_empty(&self) -> bool
        ensures { IsTrue result ↔ ((recorded self.now).content ≡ []) }
    {
        self.releases.is_empty()
    }

    /// Stops between two events, and returns the keeper with its content.
    pub fn restart(self) -> K
        ensures same { result ≡ keeper_of self }
        ensures content { K.clean result → K.content result ≡ (recorded self).content }
        ensures listed { K.clean result → ∥ K.listed result ∥₁ }
        ensures room { (max_held ≤ most_of self) × (most_of self ≤ capacity_with K.more) }
    {
        let Feed {
            alloc: _,
            keeper,
            most: _,
            releases: _,
            ahead: _,
            leftovers: _,
        } = self;
        keeper
    }

    /// Stops in the middle of an event, and returns the keeper as it was before the commit or as it is after it. An
    /// event that commits nothing, or whose commit is refused, leaves it as it was.
    pub fn stop_at(self, event: &Event<'_>, point: Point) -> K
        ensures before { point ≡ Point.Before → (result ≡ keeper_of self)
            × (K.clean result → K.content result ≡ (recorded self).content) }
        ensures after { point ≡ Point.After → K.clean result → (h : History) → IsContent (recorded self) h
            → (answer : event_answer) × IsRightWith (most_of self) h (event_of event.now) answer
            × IsContent (within (most_of self) (K.content result)) ((event_of event.now, answer) ∷ h) }
        ensures idle { point ≡ Point.After → K.clean result
            → (answer : event_answer) × Handles (recorded self) (event_of event.now) answer
            (within (most_of self) (K.content result))
            × (CommitsNothing answer → K.content result ≡ (recorded self).content) }
        ensures listed { K.clean result → ∥ K.listed result ∥₁ }
        ensures clean { K.clean result → K.clean (keeper_of self) }
        ensures counted { K.failed (keeper_of self) ≤ K.failed result }
        ensures unloaded { K.loads result ≡ K.loads (keeper_of self) }
    {
        match point {
            Point::Before => self.restart(),
            Point::After => {
                let mut feed = self;
                let _answer = feed.handle(event);
                feed.restart()
            }
        }
    }
}

/// An event of a feed: an offer, a piece, or the loss of a piece.
#[derive(Clone, Copy)]
pub enum Event<'a> {
    /// A release is offered, with the size of its file in bytes.
    Offered {
        name: &'a ReleaseName,
        size: u64,
    },
    /// Bytes of a release's file that begin at the place `first`, counted from 0. `total` is the size of the file, if
    /// the sender gave it.
    Piece {
        name: &'a ReleaseName,
        first: u64,
        total: Option<u64>,
        bytes: &'a [u8],
    },
    /// A piece of the release was requested and did not arrive. It changes nothing.
    Lost {
        name: &'a ReleaseName,
    },
}

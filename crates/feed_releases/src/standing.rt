//! The status of a release's file: incomplete, bad or good, and what follows from it.
ghost use Rattle.std.specs.Prelude.{◌≡◌, ◌↔◌, IsTrue, option_map};
ghost use Rattle.feed_parts.specs.Shown.{shown_parts};
ghost use Rattle.feed_keep.specs.Shown.{shown_change};
ghost use Rattle.feed_releases.specs.Standing.{change_to, reason_of, reply_of, rows_of, state_of};

use feed_kbart::{BadFile, Holdings, RetiredHoldings};
use feed_keep::Change;
use feed_model::{Reply, State};
use feed_names::ReleaseName;
use feed_parts::Part;

/// The status of a file.
#[derive(Drop)]
pub(crate) enum Standing {
    /// Places are missing.
    Partial,
    /// It is complete, and bad.
    Bad(BadFile),
    /// It is complete and good, with these holdings.
    Good(Holdings),
}

impl Standing {
    ghost use Rattle.feed_releases.specs.Leftovers.{HasRows};

    pub(crate) fn state(&self) -> State
        ensures { result ≡ state_of self.now }
    {
        match self {
            Standing::Partial => State::Staged,
            Standing::Bad(_) => State::Broken,
            Standing::Good(_) => State::Active,
        }
    }

    /// Returns why a complete file is bad.
    pub(crate) fn reason(&self) -> Option<BadFile>
        ensures { result ≡ reason_of self.now }
    {
        match self {
            Standing::Bad(why) => Some(*why),
            Standing::Partial | Standing::Good(_) => None,
        }
    }

    /// Returns whether this state and this reason match the status.
    pub(crate) fn is_recorded_as(&self, state: State, reason: Option<BadFile>) -> bool
        ensures { IsTrue result ↔ ((state_of self.now ≡ state) × (reason_of self.now ≡ reason)) }
    {
        self.state() == state && self.reason() == reason
    }

    /// Returns the holdings of a complete and good file.
    pub(crate) fn holdings(&self) -> Option<&Holdings>
        ensures { option_map (λ holdings. holdings.now) result ≡ rows_of self.now }
    {
        match self {
            Standing::Good(holdings) => Some(holdings),
            Standing::Partial | Standing::Bad(_) => None,
        }
    }

    /// Ends the use of the holdings of a complete and good file.
    pub(crate) fn retire(self) -> Option<RetiredHoldings>
        ensures { HasRows (rows_of self) result }
    {
        match self {
            Standing::Good(holdings) => Some(holdings.retire()),
            Standing::Partial | Standing::Bad(_) => None,
        }
    }

    /// Returns the answer to the piece that led to this status, with this many places missing.
    pub(crate) fn reply(&self, missing: u64) -> Reply
        ensures { result ≡ reply_of missing self.now }
    {
        match self {
            Standing::Partial => Reply::Stored { missing },
            Standing::Bad(why) => Reply::Broken(*why),
            Standing::Good(_) => Reply::Activated,
        }
    }

    /// Returns the change that stores the parts that led to this status.
    pub(crate) fn change<'a>(&self, name: &'a ReleaseName, parts: &'a [Part]) -> Change<'a>
        ensures { shown_change result ≡ change_to self.now name.now (shown_parts parts.now) }
    {
        match self {
            Standing::Partial => Change::Pieces { name, parts },
            Standing::Bad(why) => Change::Break {
                name,
                parts,
                reason: *why,
            },
            Standing::Good(_) => Change::Activate { name, parts },
        }
    }
}

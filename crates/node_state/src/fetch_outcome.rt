//! The outcome of a fetch, by which a node counts and reports it.
ghost use Rattle.std.specs.Prelude.{◌≡◌};
ghost use Rattle.node_state.specs.FetchOutcomes.{fetch_counter, outcome_after, outcome_of};

use feed_fetch::{FetchEnd, Stop};
use node_monitoring::Counter;

/// The outcome of a fetch.
#[derive(Clone, Copy, Debug, PartialEq, Eq)]
pub enum FetchOutcome {
    /// The node answers from the release, and did not before.
    Activated,
    /// The node answers from the release, as before.
    Known,
    /// The node answers from a later release of the package.
    Older,
    /// The file is bad.
    Broken,
    /// The knowledge base does not have the file.
    Missing,
    /// The feed did not take the release, or its name is invalid.
    Refused,
    /// The release is held.
    Held,
    /// A response did not arrive or is invalid, or the fetch was ended.
    Network,
}

// Returns the outcome of a fetch that stopped.
fn outcome_of(stop: Stop) -> FetchOutcome
    ensures { result ≡ outcome_of stop }
{
    match stop {
        Stop::Older => FetchOutcome::Older,
        Stop::Broken => FetchOutcome::Broken,
        Stop::Missing => FetchOutcome::Missing,
        Stop::Refused(_) | Stop::Print => FetchOutcome::Refused,
        Stop::Unsatisfied | Stop::NoProgress | Stop::Request(_) => FetchOutcome::Network,
    }
}

impl FetchOutcome {
    /// Returns the outcome of a fetch that ended so, with this exit status. `was_reported` is whether the node answered
    /// from the release before.
    pub fn after(end: FetchEnd, status: u8, was_reported: bool) -> FetchOutcome
        ensures { result ≡ outcome_after end status was_reported }
    {
        match end {
            FetchEnd::Done if status != 0 => FetchOutcome::Broken,
            FetchEnd::Done if was_reported => FetchOutcome::Known,
            FetchEnd::Done => FetchOutcome::Activated,
            FetchEnd::Stopped(stop) => outcome_of(stop),
            FetchEnd::NoRanges | FetchEnd::Canceled | FetchEnd::TimedOut => FetchOutcome::Network,
        }
    }

    /// Returns the counter of the fetches with this outcome.
    pub fn counter(self) -> Counter
        ensures { result ≡ fetch_counter self }
    {
        match self {
            FetchOutcome::Activated => Counter::FetchActivated,
            FetchOutcome::Known => Counter::FetchKnown,
            FetchOutcome::Older => Counter::FetchOlder,
            FetchOutcome::Broken => Counter::FetchBroken,
            FetchOutcome::Missing => Counter::FetchMissing,
            FetchOutcome::Refused => Counter::FetchRefused,
            FetchOutcome::Held => Counter::FetchHeld,
            FetchOutcome::Network => Counter::FetchNetwork,
        }
    }

    /// Returns the name of the outcome.
    pub fn name(self) -> &'static str {
        match self {
            FetchOutcome::Activated => "activated",
            FetchOutcome::Known => "known",
            FetchOutcome::Older => "older",
            FetchOutcome::Broken => "broken",
            FetchOutcome::Missing => "missing",
            FetchOutcome::Refused => "refused",
            FetchOutcome::Held => "held",
            FetchOutcome::Network => "network",
        }
    }
}

//! The counters of a node other than those of its requests.
ghost use Rattle.std.specs.Prelude.{◌≡◌, ◌<◌};
ghost use Rattle.node_monitoring.specs.Counts.{place_of};
ghost use Rattle.node_monitoring.specs.declared.counter.TheConstants.{COUNTER_COUNT};

/// A counter.
#[derive(Clone, Copy, Debug, PartialEq, Eq)]
pub enum Counter {
    /// Connections that were accepted.
    Opened,
    /// Connections that were closed, by cause.
    Complete,
    PeerClosed,
    TimedOut,
    Evicted,
    Unread,
    Streamed,
    /// Bytes of the requests that were responded to.
    RequestBytes,
    /// Bytes of responses that were sent.
    ReplyBytes,
    /// Fetches that ended, by outcome.
    FetchActivated,
    FetchKnown,
    FetchOlder,
    FetchBroken,
    FetchMissing,
    FetchRefused,
    FetchHeld,
    FetchNetwork,
    /// Requests without the token that they need.
    RefusedToken,
    /// Lines of the log that were not written.
    DroppedLine,
}

/// The number of counters.
pub(crate) const COUNTER_COUNT: usize = Counter::DroppedLine as usize + 1;

impl Counter {
    /// Returns the place of the counter among all.
    pub(crate) fn place(self) -> usize
        ensures value { result ≡ place_of self }
        ensures below { result < COUNTER_COUNT }
    {
        self as usize
    }
}

//! How far a connection is, what it wants, and its limits.
ghost use Rattle.std.specs.Prelude.{◌<◌};

/// The milliseconds that a connection may take.
#[derive(Clone, Copy)]
pub struct TimeLimits {
    /// For each step: receiving a request, sending every 16,384 bytes of a response, and sending the rest.
    pub step: u64,
    /// Between two requests, until the first byte of the second one arrives.
    pub idle: u64,
    ghost step_some: { 0 < step },
    ghost idle_some: { 0 < idle },
}

/// The event that a connection waits for.
#[derive(Clone, Copy, Debug, PartialEq, Eq)]
pub enum Wants {
    /// Bytes from the peer.
    Bytes,
    /// A call of `parse_request`: it holds bytes that were not parsed.
    Parse,
    /// Room for bytes to the peer.
    Room,
    /// A call of `resume`: a response was sent, and the connection persists.
    Next,
    /// Nothing: close it.
    Close,
}

/// The cause for which a connection is closed.
#[derive(Clone, Copy, Debug, PartialEq, Eq)]
pub enum Shortage {
    /// Another connection needs its place.
    Places,
    /// The responses that are held take too much memory.
    Memory,
}

/// How far a connection is.
#[derive(Clone, Copy, Debug, PartialEq, Eq)]
pub enum ConnectionPhase {
    /// No byte of the next request was received.
    Idle,
    /// A request is incomplete: its head, or the body after it.
    Receiving,
    /// The bytes held were not parsed.
    Parsing,
    /// A part of the response remains to be sent.
    Sending,
    /// The whole response was sent, and the connection persists.
    Answered,
    /// The last response was sent. Further bytes from the peer are dropped until it closes its side.
    Lingering,
    /// The last response was sent, and the peer closed its side or the time limit passed.
    Complete,
    /// The time limit passed, the peer closed its side, or memory ran out.
    Aborted,
}

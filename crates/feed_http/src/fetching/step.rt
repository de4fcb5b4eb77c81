//! The steps of a machine that parses bytes as they arrive.
use feed_http_heads::HttpFault;

/// A step over the bytes at hand.
#[derive(Clone, Copy, Debug)]
pub enum Step {
    /// Keep them until more have arrived.
    Wait,
    /// Drop this many at the front, which are not of the body.
    Skip(usize),
    /// Take this many at the front, which are the next ones of the body.
    Body(usize),
    /// Keep them: the response is complete, and they follow it.
    Done,
    /// Stop: the response has this fault, whatever follows.
    Fault(HttpFault),
}

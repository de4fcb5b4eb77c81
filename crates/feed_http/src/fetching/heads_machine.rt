//! The heads of a response while they arrive (RFC 9112, section 4).
ghost use Rattle.std.specs.Prelude.{◌≡◌, ◌≤◌, ℕ, List, [], length};
ghost use Rattle.feed_http_heads.specs.Limits.{field_limit};
ghost use Rattle.feed_http.specs.ArrivingHeads.{ArePassed, IsHeadStep, IsHeadWithin};

use feed_http_heads::{HEAD_LIMIT, HttpFault, is_interim};
use httparse::Status;
use httparse::spans::{HeaderSpan, ResponseSpans, parse_response};

/// How many bytes of interim heads were passed.
#[derive(Clone, Copy, Debug)]
pub(crate) struct HeadsMachine {
    passed: usize,
}

/// A step over the bytes at hand.
#[derive(Clone, Copy, Debug)]
pub(crate) enum HeadStep {
    /// Keep them until more have arrived.
    Wait,
    /// Drop this many at the front, which are an interim head.
    Skip(usize),
    /// Validate the head, whose parts are at these places of the first `front` bytes.
    Head { front: usize, spans: ResponseSpans },
    /// Stop: the heads have this fault, whatever follows.
    Fault(HttpFault),
}

impl HeadsMachine {
    /// Begins before the first head.
    pub(crate) fn new() -> HeadsMachine
        ensures { ArePassed result.passed [] }
    {
        HeadsMachine { passed: 0 }
    }

    /// Returns what to do with the bytes at hand, which follow the interim heads that were passed.
    pub(crate) fn step(&mut self, bytes: &[u8], headers: &mut [HeaderSpan]) -> HeadStep
        requires { length headers.old ≡ field_limit }
        ensures within { IsHeadWithin bytes.now headers.new result }
        ensures step { (text : List ℕ) → ArePassed self.old.passed text
            → IsHeadStep self.new text bytes.now headers.new result }
    {
        let room = HEAD_LIMIT.saturating_sub(self.passed);
        let front = bytes.len().min(room);
        match parse_response(&bytes[..front], headers) {
            Ok(Status::Complete(spans)) => {
                if is_interim(spans.code) {
                    self.passed += spans.len;
                    return HeadStep::Skip(spans.len);
                }
                HeadStep::Head { front, spans }
            }
            Ok(Status::Partial) => {
                if front == room {
                    HeadStep::Fault(HttpFault::HeadTooLong)
                } else {
                    HeadStep::Wait
                }
            }
            Err(_) => HeadStep::Fault(HttpFault::BadHead),
        }
    }
}

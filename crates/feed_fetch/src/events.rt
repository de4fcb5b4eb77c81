//! The events of a fetch, as values.
use crate::printer::Unprinted;
use feed_model::{Refusal, Reply};
use std::fmt;

/// An event of a fetch. Its text is a line of the output.
#[derive(Clone, Copy, Debug, PartialEq, Eq)]
pub enum FetchEvent {
    /// A response stated the length of the file.
    Size(u64),
    /// The feed accepted an event.
    Accepted(Reply),
    /// The feed refused an event.
    Refused(Refusal),
    /// The peer does not have the file.
    Missing,
    /// The peer's file has no byte of the range.
    Unsatisfied,
}

impl fmt::Display for FetchEvent {
    ghost use Rattle.std.specs.Prelude.{Some};
    ghost use Rattle.feed_fetch.specs.Lines.{event_text};

    ghost output = { λ event. Some (event_text event) };

    fn fmt<W: fmt::Write>(&self, f: &mut fmt::Formatter<W>) -> fmt::Result {
        match self {
            FetchEvent::Size(size) => write!(f, "size {size}"),
            FetchEvent::Accepted(reply) => write!(f, "{reply}"),
            FetchEvent::Refused(refusal) => write!(f, "refused {refusal}"),
            FetchEvent::Missing => f.write_str("missing"),
            FetchEvent::Unsatisfied => f.write_str("unsatisfied"),
        }
    }
}

/// Gets the events of a fetch as values, each when it happens, and records whether one was not printed.
pub trait Observe {
    ghost use Rattle.std.specs.Prelude.{◌≡◌, ℕ, Bool, List, Option, IsTrue, None, OnOk, OnErr};
    ghost use Rattle.feed_fetch.specs.Lines.{event_text, HasLine};

    /// Whether an event was not printed.
    ghost has_failed: { Self → Bool };

    // The lines that it printed, if its contracts name them.
    ghost lines: { Self → Option (List ℕ) } = { λ _. None };

    /// Takes an event.
    fn observe(&mut self, event: FetchEvent) -> Result<(), Unprinted>
        ensures printed { OnOk result (has_failed self.new ≡ has_failed self.old) }
        ensures line { OnOk result (HasLine (lines self.old) (lines self.new) (event_text event)) }
        ensures failed { OnErr result (IsTrue (has_failed self.new)) };

    /// Takes the end of the fetch.
    fn finish(&mut self) -> Result<(), Unprinted>
        ensures printed { OnOk result (has_failed self.new ≡ has_failed self.old) }
        ensures failed { OnErr result (IsTrue (has_failed self.new)) };
}

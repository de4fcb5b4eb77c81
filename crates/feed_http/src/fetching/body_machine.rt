//! The body of a response while it arrives (RFC 9112, section 6.3).
ghost use Rattle.std.specs.Prelude.{◌≡◌, ℕ, true, false, List, [], length};
ghost use Rattle.feed_http.specs.ArrivingChunks.{IsWithin};
ghost use Rattle.feed_http.specs.ArrivingBodies.{HasPassedBody, IsBodyStep, BodyEndsAs};

use crate::fetching::chunk_machine::{Bounds, ChunkMachine};
use crate::fetching::step::Step;
use crate::fetching::validation::Framing;
use feed_http_heads::HttpFault;

/// How far a body was passed.
#[derive(Clone, Copy, Debug)]
pub(crate) struct BodyMachine {
    framing: Framing,
    chunks: ChunkMachine,
    /// The bytes that were passed of a body that is not chunked.
    arrived: usize,
}

impl BodyMachine {
    /// Begins before the first byte behind the head.
    pub(crate) fn new(framing: Framing, bounds: Bounds) -> BodyMachine
        ensures framing { result.framing ≡ framing }
        ensures bounds { result.chunks.bounds ≡ bounds }
        ensures passed { HasPassedBody result.framing result [] [] }
    {
        BodyMachine {
            framing,
            chunks: ChunkMachine::new(bounds),
            arrived: 0,
        }
    }

    fn step_chunks(&mut self, bytes: &[u8]) -> Step
        requires { self.old.framing ≡ Framing.Chunked }
        ensures framing { self.new.framing ≡ self.old.framing }
        ensures bounds { self.new.chunks.bounds ≡ self.old.chunks.bounds }
        ensures within { IsWithin result (length bytes.now) }
        ensures step { (text body : List ℕ) → HasPassedBody self.old.framing self.old text body
            → IsBodyStep self.new text body bytes.now result }
    {
        self.chunks.step(bytes)
    }

    fn step_sized(&mut self, size: u64, bytes: &[u8]) -> Step
        requires { self.old.framing ≡ Framing.Sized size }
        ensures framing { self.new.framing ≡ self.old.framing }
        ensures bounds { self.new.chunks.bounds ≡ self.old.chunks.bounds }
        ensures within { IsWithin result (length bytes.now) }
        ensures step { (text body : List ℕ) → HasPassedBody self.old.framing self.old text body
            → IsBodyStep self.new text body bytes.now result }
    {
        let left = (size as usize).saturating_sub(self.arrived);
        if left == 0 {
            return Step::Done;
        }
        let count = left.min(bytes.len());
        if count == 0 {
            return Step::Wait;
        }
        self.arrived += count;
        Step::Body(count)
    }

    fn step_to_end(&mut self, bytes: &[u8]) -> Step
        requires { self.old.framing ≡ Framing.ToEnd }
        ensures framing { self.new.framing ≡ self.old.framing }
        ensures bounds { self.new.chunks.bounds ≡ self.old.chunks.bounds }
        ensures within { IsWithin result (length bytes.now) }
        ensures step { (text body : List ℕ) → HasPassedBody self.old.framing self.old text body
            → IsBodyStep self.new text body bytes.now result }
    {
        let room = self.chunks.bounds.most.saturating_sub(self.arrived);
        let count = bytes.len();
        if count > room {
            return Step::Fault(HttpFault::BodyTooLong);
        }
        if count == 0 {
            return Step::Wait;
        }
        self.arrived += count;
        Step::Body(count)
    }

    /// Returns what to do with the bytes at hand, which follow those that were passed.
    pub(crate) fn step(&mut self, bytes: &[u8]) -> Step
        ensures framing { self.new.framing ≡ self.old.framing }
        ensures bounds { self.new.chunks.bounds ≡ self.old.chunks.bounds }
        ensures within { IsWithin result (length bytes.now) }
        ensures step { (text body : List ℕ) → HasPassedBody self.old.framing self.old text body
            → IsBodyStep self.new text body bytes.now result }
    {
        match self.framing {
            Framing::Chunked => self.step_chunks(bytes),
            Framing::Sized(size) => self.step_sized(size, bytes),
            Framing::ToEnd => self.step_to_end(bytes),
        }
    }

    /// Returns whether a body that needs more than these bytes breaks off if the server closes the stream.
    pub(crate) fn ends_short(&self, body: &[u8]) -> bool
        ensures short { result ≡ true
            → BodyEndsAs self.now.framing self.now.chunks.bounds.least body.now (Err HttpFault.Short) }
        ensures whole { result ≡ false
            → BodyEndsAs self.now.framing self.now.chunks.bounds.least body.now (Ok body.now) }
    {
        match self.framing {
            Framing::ToEnd => body.len() < self.chunks.bounds.least,
            Framing::Chunked | Framing::Sized(_) => true,
        }
    }

    /// Returns how many bytes of the body are still to come at least, unless it has a fault.
    pub(crate) fn missing(&self) -> usize {
        match self.framing {
            Framing::Chunked => self.chunks.missing(),
            Framing::Sized(size) => (size as usize).saturating_sub(self.arrived),
            Framing::ToEnd => self.chunks.bounds.least.saturating_sub(self.arrived),
        }
    }
}

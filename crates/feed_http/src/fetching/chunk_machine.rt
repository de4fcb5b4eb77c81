//! A chunked body while its bytes arrive (RFC 9112, section 7.1).
ghost use Rattle.std.specs.Prelude.{◌≡◌, ℕ, List, [], length};
ghost use Rattle.feed_http.specs.ArrivingChunks.{HasPassed, IsWithin, IsStep};

use crate::fetching::chunk_parts::{DataEnd, Line, Trailers, find_end, parse_line, parse_trailers};
use crate::fetching::step::Step;
use feed_http_heads::HttpFault;

/// How many bytes a body without a stated length may have.
#[derive(Clone, Copy, Debug)]
pub(crate) struct Bounds {
    pub least: usize,
    pub most: usize,
}

/// The part that comes next.
#[derive(Clone, Copy, Debug, PartialEq, Eq)]
pub(crate) enum Next {
    /// The line of a chunk.
    Line,
    /// This many bytes of a chunk, and CR LF.
    Data(usize),
    /// The trailer section.
    Trailers,
    /// The body is complete.
    Nothing,
}

/// How far a chunked body was passed.
#[derive(Clone, Copy, Debug)]
pub(crate) struct ChunkMachine {
    pub(crate) next: Next,
    pub(crate) bounds: Bounds,
    /// The sum of the sizes in the lines that were passed.
    pub(crate) announced: usize,
}

impl ChunkMachine {
    /// Begins before the line of the first chunk.
    pub(crate) fn new(bounds: Bounds) -> ChunkMachine
        ensures bounds { result.bounds ≡ bounds }
        ensures passed { HasPassed result [] [] }
    {
        ChunkMachine {
            next: Next::Line,
            bounds,
            announced: 0,
        }
    }

    fn step_line(&mut self, bytes: &[u8]) -> Step
        requires { self.old.next ≡ Next.Line }
        ensures bounds { self.new.bounds ≡ self.old.bounds }
        ensures within { IsWithin result (length bytes.now) }
        ensures step { (text body : List ℕ) → HasPassed self.old text body
            → IsStep self.new text body bytes.now result }
    {
        match parse_line(bytes) {
            Line::Complete { count, size } => {
                if size == 0 {
                    if self.announced < self.bounds.least {
                        return Step::Fault(HttpFault::Length);
                    }
                    self.next = Next::Trailers;
                    return Step::Skip(count);
                }
                if size > self.bounds.most.saturating_sub(self.announced) as u64 {
                    return Step::Fault(HttpFault::BodyTooLong);
                }
                self.announced += size as usize;
                self.next = Next::Data(size as usize);
                Step::Skip(count)
            }
            Line::Unfinished => Step::Wait,
            Line::Invalid => Step::Fault(HttpFault::Coding),
        }
    }

    fn step_data(&mut self, left: usize, bytes: &[u8]) -> Step
        requires { self.old.next ≡ Next.Data left }
        ensures bounds { self.new.bounds ≡ self.old.bounds }
        ensures within { IsWithin result (length bytes.now) }
        ensures step { (text body : List ℕ) → HasPassed self.old text body
            → IsStep self.new text body bytes.now result }
    {
        if left > 0 {
            let count = left.min(bytes.len());
            if count == 0 {
                return Step::Wait;
            }
            self.next = Next::Data(left - count);
            return Step::Body(count);
        }
        match find_end(bytes) {
            DataEnd::Complete => {
                self.next = Next::Line;
                Step::Skip(2)
            }
            DataEnd::Unfinished => Step::Wait,
            DataEnd::Invalid => Step::Fault(HttpFault::Coding),
        }
    }

    fn step_trailers(&mut self, bytes: &[u8]) -> Step
        requires { self.old.next ≡ Next.Trailers }
        ensures bounds { self.new.bounds ≡ self.old.bounds }
        ensures within { IsWithin result (length bytes.now) }
        ensures step { (text body : List ℕ) → HasPassed self.old text body
            → IsStep self.new text body bytes.now result }
    {
        match parse_trailers(bytes) {
            Trailers::Complete(count) => {
                self.next = Next::Nothing;
                Step::Skip(count)
            }
            Trailers::Unfinished => Step::Wait,
            Trailers::Invalid => Step::Fault(HttpFault::Coding),
        }
    }

    /// Returns what to do with the bytes at hand, which follow those that were passed.
    pub(crate) fn step(&mut self, bytes: &[u8]) -> Step
        ensures bounds { self.new.bounds ≡ self.old.bounds }
        ensures within { IsWithin result (length bytes.now) }
        ensures step { (text body : List ℕ) → HasPassed self.old text body
            → IsStep self.new text body bytes.now result }
    {
        match self.next {
            Next::Line => self.step_line(bytes),
            Next::Data(left) => self.step_data(left, bytes),
            Next::Trailers => self.step_trailers(bytes),
            Next::Nothing => Step::Done,
        }
    }

    /// Returns how many bytes of the body are still to come at least, unless it has a fault.
    pub(crate) fn missing(&self) -> usize {
        let left = match self.next {
            Next::Data(left) => left,
            _ => 0,
        };
        left.saturating_add(self.bounds.least.saturating_sub(self.announced))
    }
}

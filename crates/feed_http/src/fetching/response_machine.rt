//! A response while its bytes arrive.
ghost use Rattle.std.specs.Prelude.{◌≡◌, ℕ, List, [], length, Some, IfSome, IfNone};
ghost use Rattle.feed_http.specs.ArrivingChunks.{IsWithin};
ghost use Rattle.feed_http.specs.ArrivingResponses.{HasPassedResponse, IsResponseStep, IsResult, ResponseEndsAs};
ghost use Rattle.feed_http.specs.ArrivingResponses.{step_of_part};
ghost use Rattle.feed_http.specs.ArrivingResponses.{IsBetweenHeads, IsInBody, got_of, file_length, is_unsized};

use crate::fetching::body_machine::BodyMachine;
use crate::fetching::chunk_machine::Bounds;
use crate::fetching::got::{Bytes, Got, Method};
use crate::fetching::heads_machine::{HeadStep, HeadsMachine};
use crate::fetching::step::Step;
use crate::fetching::validation::{Announcement, BufferedHead, Framing};
use feed_http_heads::{FIELD_LIMIT, HttpFault};
use feed_limits::FILE_LIMIT;
use httparse::spans::EMPTY_HEADER_SPAN;

/// How the stream of a response ended.
#[derive(Clone, Copy, Debug, PartialEq, Eq)]
pub enum StreamEnd {
    /// The server closed it.
    Closed,
    /// It failed.
    Failed,
    /// It was not complete in time.
    TimedOut,
}

/// The place in a response at which the bytes end that were passed.
#[derive(Clone, Copy)]
pub(crate) enum Place {
    /// Between its heads.
    Heads(HeadsMachine),
    /// Behind its heads, which announce this.
    Body {
        announced: Announcement,
        machine: BodyMachine,
    },
}

/// Parses a response while its bytes arrive, however they are cut. It does no I/O, allocates nothing, and keeps no
/// bytes: its caller keeps those that were not passed, and shows them again with more behind them.
#[derive(Clone, Copy)]
pub struct ResponseMachine {
    method: Method,
    place: Place,
}

// Returns the machine for the body that is announced. If none is, the machine is not used.
fn body_of(announced: Announcement) -> BodyMachine
    ensures { IsInBody announced result [] [] }
{
    match announced {
        Announcement::Part {
            first: _,
            total: _,
            count,
            framing,
        } => {
            let bounds = Bounds {
                least: count as usize,
                most: count as usize,
            };
            BodyMachine::new(framing, bounds)
        }
        Announcement::Whole(framing) => BodyMachine::new(framing, FILE_BOUNDS),
        _ => BodyMachine::new(Framing::ToEnd, FILE_BOUNDS),
    }
}

const FILE_BOUNDS: Bounds = Bounds {
    least: 0,
    most: FILE_LIMIT,
};

// A part that is longer than its range has the wrong length.
fn step_of_part(step: Step) -> Step
    ensures value { result ≡ step_of_part step }
    ensures within { (size : ℕ) → IsWithin step size → IsWithin result size }
{
    match step {
        Step::Fault(HttpFault::BodyTooLong) => Step::Fault(HttpFault::Length),
        step => step,
    }
}

impl ResponseMachine {
    /// Begins before the first byte of a response to a request with this method.
    pub fn new(method: Method) -> ResponseMachine
        ensures method { result.method ≡ method }
        ensures passed { HasPassedResponse result [] [] }
    {
        ResponseMachine {
            method,
            place: Place::Heads(HeadsMachine::new()),
        }
    }

    fn step_heads(&mut self, mut heads: HeadsMachine, bytes: &[u8]) -> Step
        requires { self.old.place ≡ Place.Heads heads }
        ensures method { self.new.method ≡ self.old.method }
        ensures stated { IfSome (file_length self.old.place) (λ size. file_length self.new.place ≡ Some size) }
        ensures within { IsWithin result (length bytes.now) }
        ensures step { (text body : List ℕ) → HasPassedResponse self.old text body
            → IsResponseStep self.new text body bytes.now result }
    {
        let mut headers = [EMPTY_HEADER_SPAN; FIELD_LIMIT];
        match heads.step(bytes, &mut headers) {
            HeadStep::Wait => Step::Wait,
            HeadStep::Skip(count) => {
                self.place = Place::Heads(heads);
                Step::Skip(count)
            }
            HeadStep::Head { front, spans } => {
                let reply = BufferedHead {
                    buffer: &bytes[..front],
                    headers: &headers,
                    spans,
                };
                match reply.validate(self.method) {
                    Ok(announced) => {
                        let machine = body_of(announced);
                        self.place = Place::Body { announced, machine };
                        Step::Skip(spans.len)
                    }
                    Err(fault) => Step::Fault(fault),
                }
            }
            HeadStep::Fault(fault) => Step::Fault(fault),
        }
    }

    fn step_body(&mut self, announced: Announcement, mut machine: BodyMachine, bytes: &[u8]) -> Step
        requires { self.old.place ≡ Place.Body announced machine }
        ensures method { self.new.method ≡ self.old.method }
        ensures stated { IfSome (file_length self.old.place) (λ size. file_length self.new.place ≡ Some size) }
        ensures within { IsWithin result (length bytes.now) }
        ensures step { (text body : List ℕ) → HasPassedResponse self.old text body
            → IsResponseStep self.new text body bytes.now result }
    {
        match announced {
            Announcement::Part { .. } => {
                let step = machine.step(bytes);
                self.place = Place::Body { announced, machine };
                step_of_part(step)
            }
            Announcement::Whole(_) => {
                let step = machine.step(bytes);
                self.place = Place::Body { announced, machine };
                step
            }
            _ => Step::Done,
        }
    }

    /// Returns what to do with the bytes at hand, which follow those that were passed.
    pub fn step(&mut self, bytes: &[u8]) -> Step
        ensures method { self.new.method ≡ self.old.method }
        ensures stated { IfSome (file_length self.old.place) (λ size. file_length self.new.place ≡ Some size) }
        ensures within { IsWithin result (length bytes.now) }
        ensures step { (text body : List ℕ) → HasPassedResponse self.old text body
            → IsResponseStep self.new text body bytes.now result }
    {
        match self.place {
            Place::Heads(heads) => self.step_heads(heads, bytes),
            Place::Body { announced, machine } => self.step_body(announced, machine, bytes),
        }
    }

    /// Returns how many bytes of the body are still to come at least, unless it has a fault.
    pub(crate) fn missing(&self) -> usize {
        match self.place {
            Place::Heads(_) => 0,
            Place::Body {
                announced: _,
                machine,
            } => machine.missing(),
        }
    }

    /// Returns the length of the file if the heads announce a whole file of a stated length. Each part of its body that
    /// was taken is then a part of the file (`an_arriving_part_is_of_the_file`).
    pub fn file_length(&self) -> Option<u64>
        ensures { result ≡ file_length self.now.place }
    {
        match self.place {
            Place::Body {
                announced: Announcement::Whole(Framing::Sized(length)),
                machine: _,
            } => Some(length),
            _ => None,
        }
    }

    /// Returns whether the heads announce a whole file without its length.
    pub fn is_unsized(&self) -> bool
        ensures { result ≡ is_unsized self.now.place }
    {
        match self.place {
            Place::Body {
                announced: Announcement::Whole(Framing::Chunked | Framing::ToEnd),
                machine: _,
            } => true,
            _ => false,
        }
    }

    /// Returns the result of a complete response with these bytes in its body, or nothing if its heads are not
    /// complete.
    pub fn finish(&self, body: Vec<u8>) -> Option<Got>
        ensures some { IfSome result (λ given. IsResult self.now.place body.items given) }
        ensures none { IfNone result (IsBetweenHeads self.now.place) }
    {
        match self.place {
            Place::Heads(_) => None,
            Place::Body {
                announced,
                machine: _,
            } => Some(got_of(announced, Bytes::new(body))),
        }
    }

    /// Returns what the end of the stream makes of a response that needs more bytes. A body without a length is
    /// complete only if the server closed the stream.
    ///
    /// # Errors
    ///
    /// `Short` if the stream was closed before the response was complete, and otherwise `Read`.
    pub fn end(&self, end: StreamEnd, body: Vec<u8>) -> Result<Got, HttpFault>
        ensures { ResponseEndsAs end self.now.place body.items result }
    {
        match end {
            StreamEnd::Closed => self.close(body),
            StreamEnd::Failed | StreamEnd::TimedOut => Err(HttpFault::Read),
        }
    }

    fn close(&self, body: Vec<u8>) -> Result<Got, HttpFault>
        ensures { ResponseEndsAs StreamEnd.Closed self.now.place body.items result }
    {
        match self.place {
            Place::Heads(_) => Err(HttpFault::Short),
            Place::Body { announced, machine } => {
                if machine.ends_short(&body) {
                    return Err(HttpFault::Short);
                }
                Ok(got_of(announced, Bytes::new(body)))
            }
        }
    }
}

fn got_of(announced: Announcement, bytes: Bytes) -> Got
    ensures { result ≡ got_of announced bytes }
{
    match announced {
        Announcement::Missing => Got::Missing,
        Announcement::Unsatisfied { total } => Got::Unsatisfied { total },
        Announcement::Size(length) => Got::Size(length),
        Announcement::Part { first, total, .. } => Got::Piece {
            first,
            total,
            bytes,
        },
        Announcement::Whole(_) => Got::Whole { bytes },
    }
}

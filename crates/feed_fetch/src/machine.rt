//! A fetch of one release, as a machine that does no I/O: it says what to request next, and takes the responses.
ghost use Rattle.std.specs.Prelude.{ℕ, List, Option, ◌≡◌, ◌≤◌, ◌⊎◌, Some, None, Err, IfErr};
ghost use Rattle.feed_model.specs.Content.{IsContent};
ghost use Rattle.feed_model.specs.History.{History, Piece};
ghost use Rattle.feed_releases.specs.Feeds.{most_of, recorded};
ghost use Rattle.feed_limits.specs.Limits.{piece_limit};
ghost use Rattle.feed_fetch.specs.Answers.{HasCause, HasRightAnswer, IsStoppedAt, piece_result, response_or_stop};
ghost use Rattle.feed_fetch.specs.Effects.{IsExtension, IsTakenFrom};
ghost use Rattle.feed_fetch.specs.Exchanges.{Opens, Fills};
ghost use Rattle.feed_fetch.specs.Owed.{IsSubmitted};
ghost use Rattle.feed_fetch.specs.Steps.{IsNextStep, IsArrivedPart};
ghost use Rattle.feed_fetch.specs.Steps.{phase_after, phase_after_part, without_news};

use crate::events::Observe;
use crate::responses::{handle_piece, take_length, take_range};
use crate::stop::{RequestFault, Stop};
use feed_dial::DialFault;
use feed_http::{FilePart, Got};
use feed_keep::Keep;
use feed_names::ReleaseName;
use feed_releases::Feed;

/// A request of a fetch.
#[derive(Clone, Copy, Debug, PartialEq, Eq)]
pub enum FetchRequest {
    /// For the length of the file.
    Length,
    /// For the range from the first to the last place of the file, both included.
    Range { first: u64, last: u64 },
}

/// The next step of a fetch.
#[derive(Clone, Copy, Debug, PartialEq, Eq)]
pub enum Next {
    /// It needs the response to this request.
    Ask(FetchRequest),
    /// It needs nothing: no range is missing, or the fetch stopped.
    Done,
}

/// How far a fetch is.
#[derive(Clone, Copy, Debug, PartialEq, Eq)]
pub enum Phase {
    /// The length of the file is not known.
    New,
    /// The release was offered to the feed.
    Offered,
    /// The fetch stopped.
    Stopped,
}

/// A fetch of one release. It holds nothing of the feed.
#[derive(Clone, Copy)]
pub struct Fetch {
    /// The most places of a request, 1 to 1,048,576.
    pub piece: u64,
    pub phase: Phase,
    ghost least: { 1 ≤ piece },
    ghost most: { piece ≤ piece_limit },
}

// Returns the phase after a response.
fn phase_after(outcome: Result<(), Stop>) -> Phase
    ensures { result ≡ phase_after outcome }
{
    match outcome {
        Ok(()) => Phase::Offered,
        Err(_) => Phase::Stopped,
    }
}

// Returns the phase after a part of a file that is still arriving.
fn phase_after_part(phase: Phase, taken: Result<bool, Stop>) -> Phase
    ensures { result ≡ phase_after_part phase taken }
{
    match taken {
        Ok(_) => phase,
        Err(_) => Phase::Stopped,
    }
}

// Returns whether a piece was taken, new or not.
fn without_news(taken: Result<bool, Stop>) -> Result<(), Stop>
    ensures { result ≡ without_news taken }
{
    match taken {
        Ok(_) => Ok(()),
        Err(stop) => Err(stop),
    }
}

impl Fetch {
    /// Begins a fetch, by requests for at most `piece` places.
    pub fn new(piece: u64) -> Fetch
        requires least { 1 ≤ piece }
        requires most { piece ≤ piece_limit }
        ensures piece { result.piece ≡ piece }
        ensures phase { result.phase ≡ Phase.New }
    {
        Fetch {
            piece,
            phase: Phase::New,
        }
    }

    /// Returns what the fetch of this release needs next.
    pub fn next<K: Keep>(&self, feed: &Feed<K>, name: &ReleaseName) -> Next
        ensures { (h : History) → IsContent (recorded feed.now) h
            → IsNextStep name.now self.now.piece self.now.phase h result }
    {
        match self.phase {
            Phase::New => Next::Ask(FetchRequest::Length),
            Phase::Offered => match feed.next_range(name, self.piece) {
                Some((first, last)) => Next::Ask(FetchRequest::Range { first, last }),
                None => Next::Done,
            },
            Phase::Stopped => Next::Done,
        }
    }

    // Submits the events of a response to the feed.
    fn submit<K: Keep, O: Observe>(
        self,
        feed: &mut Feed<K>,
        name: &ReleaseName,
        reply: &Result<Got, RequestFault>,
        out: &mut O,
    ) -> Result<(), Stop>
        ensures owed { IsSubmitted name.now self.phase reply.now
            (λ k. IfErr result (λ stop. IsStoppedAt name.now stop k)) (recorded feed.old) (recorded feed.new) }
        ensures opens { Opens name.now self.phase reply.now result (recorded feed.old) (recorded feed.new) }
        ensures fills { Fills name.now self.phase reply.now result (recorded feed.old) (recorded feed.new) }
        ensures room { most_of feed.new ≡ most_of feed.old }
        ensures caused { (refused : Option DialFault)
            → ((fault : DialFault) → reply.now ≡ Err (RequestFault.Dial fault) → refused ≡ Some fault)
            → IfErr result (λ stop. HasCause (O.has_failed out.new) refused stop) }
    {
        match self.phase {
            Phase::New => take_length(feed, name, reply, out),
            Phase::Offered => take_range(feed, name, reply, out),
            Phase::Stopped => Err(Stop::NoProgress),
        }
    }

    /// Takes the response to the last request, or why there is none: submits its events to the feed, and passes
    /// them and the feed's answers to the observer. Returns why the fetch stops, if it does.
    pub fn take<K: Keep, O: Observe>(
        &mut self,
        feed: &mut Feed<K>,
        name: &ReleaseName,
        reply: &Result<Got, RequestFault>,
        out: &mut O,
    ) -> Result<(), Stop>
        ensures owed { IsSubmitted name.now self.old.phase reply.now
            (λ k. IfErr result (λ stop. IsStoppedAt name.now stop k)) (recorded feed.old) (recorded feed.new) }
        ensures opens { Opens name.now self.old.phase reply.now result (recorded feed.old) (recorded feed.new) }
        ensures fills { Fills name.now self.old.phase reply.now result (recorded feed.old) (recorded feed.new) }
        ensures room { most_of feed.new ≡ most_of feed.old }
        ensures caused { (refused : Option DialFault)
            → ((fault : DialFault) → reply.now ≡ Err (RequestFault.Dial fault) → refused ≡ Some fault)
            → IfErr result (λ stop. HasCause (O.has_failed out.new) refused stop) }
        ensures phase { self.new.phase ≡ phase_after result }
        ensures piece { self.new.piece ≡ self.old.piece }
    {
        let outcome = self.submit(feed, name, reply, out);
        self.phase = phase_after(outcome);
        outcome
    }

    /// Takes the response as `take` does, but continues after a piece without new bytes. The feed may have bytes of a
    /// file that is read from its front on.
    pub fn take_again<K: Keep, O: Observe>(
        &mut self,
        feed: &mut Feed<K>,
        name: &ReleaseName,
        reply: &Result<Got, RequestFault>,
        out: &mut O,
    ) -> Result<(), Stop>
        ensures owed { IsSubmitted name.now self.old.phase reply.now
            (λ k. IfErr result (λ stop. IsStoppedAt name.now stop k)) (recorded feed.old) (recorded feed.new) }
        ensures room { most_of feed.new ≡ most_of feed.old }
        ensures phase { self.new.phase ≡ phase_after result }
        ensures piece { self.new.piece ≡ self.old.piece }
    {
        match (self.phase, reply) {
            (
                Phase::Offered,
                Ok(
                    Got::Piece {
                        first,
                        total,
                        bytes,
                    },
                ),
            ) => {
                let taken = handle_piece(feed, name, *first, *total, bytes.as_slice(), out);
                let outcome = without_news(taken);
                self.phase = phase_after(outcome);
                outcome
            }
            _ => self.take(feed, name, reply, out),
        }
    }

    /// Takes a part of a whole file whose length the response stated, before the rest of it has arrived: submits it to
    /// the feed as a piece, and passes the feed's answer to the observer. Returns whether the part had new bytes, or
    /// why the fetch stops.
    pub fn take_part<K: Keep, O: Observe>(
        &mut self,
        feed: &mut Feed<K>,
        name: &ReleaseName,
        part: &FilePart<'_>,
        out: &mut O,
    ) -> Result<bool, Stop>
        ensures extends { (file : List ℕ) → IsArrivedPart file part.now.first part.now.length part.now.bytes.now
            → IsExtension (IsTakenFrom name.now (Got.Whole file))
            (λ k. IfErr result (λ stop. IsStoppedAt name.now stop k)) (recorded feed.old) (recorded feed.new) }
        ensures room { most_of feed.new ≡ most_of feed.old }
        ensures right { HasRightAnswer
            (λ answer. (result ≡ piece_result (response_or_stop answer)) ⊎ (result ≡ Err Stop.Print))
            (recorded feed.old) (Piece name.now part.now.first (Some part.now.length) part.now.bytes.now)
            (recorded feed.new) }
        ensures caused { IfErr result (λ stop. HasCause (O.has_failed out.new) None stop) }
        ensures phase { self.new.phase ≡ phase_after_part self.old.phase result }
        ensures piece { self.new.piece ≡ self.old.piece }
    {
        let FilePart {
            first,
            length,
            bytes,
        } = *part;
        let taken = handle_piece(feed, name, first, Some(length), bytes, out);
        self.phase = phase_after_part(self.phase, taken);
        taken
    }
}

//! Passes responses to the feed as events, and its answers to an observer.
ghost use Rattle.std.specs.Prelude.{ℕ, List, Option, Some, None, ◌≡◌, ◌≢◌, ◌⊎◌, Ok, Err, IfOk, IfErr, IsTrue};
ghost use Rattle.feed_model.specs.History.{Offered, Piece};
ghost use Rattle.feed_releases.specs.Feeds.{most_of, recorded};
ghost use Rattle.feed_releases.specs.Events.{event_of};
ghost use Rattle.feed_fetch.specs.Answers.{HasCause, HasRightAnswer, IsStoppedAt, add_news, first_stop};
ghost use Rattle.feed_fetch.specs.Answers.{has_new_bytes, offer_result, piece_result, response_or_stop, round_result};
ghost use Rattle.feed_fetch.specs.Lines.{event_text, HasLine, IsPrintedAs};
ghost use Rattle.feed_fetch.specs.declared.events.FetchEvent.TheVariants.{Size};
ghost use Rattle.feed_fetch.specs.Steps.{HasLength, HasRange};
ghost use Rattle.feed_fetch.specs.Effects.{IsFetchable, IsOpened, IsFilled};
ghost use Rattle.feed_fetch.specs.Owed.{IsSubmitted, is_followed};

use crate::events::{FetchEvent, Observe};
use crate::machine::Phase;
use crate::printer::Unprinted;
use crate::stop::{RequestFault, Stop};
use feed_dial::DialFault;
use feed_http::Got;
use feed_keep::Keep;
use feed_limits::PIECE_LIMIT;
use feed_model::{Refusal, Reply};
use feed_names::ReleaseName;
use feed_releases::{Event, Feed};

// Passes the feed's answer to the observer, and returns whether the fetch continues after it.
fn report_answer<O: Observe>(answer: Result<Reply, Refusal>, out: &mut O) -> Result<Reply, Stop>
    ensures line { IsPrintedAs (O.lines out.old) (O.lines out.new) answer result }
    ensures caused { IfErr result (λ stop. HasCause (O.has_failed out.new) None stop) }
    ensures kept { IsTrue (O.has_failed out.old) → IsTrue (O.has_failed out.new) }
{
    let event = match answer {
        Ok(reply) => FetchEvent::Accepted(reply),
        Err(refusal) => FetchEvent::Refused(refusal),
    };
    let Ok(()) = out.observe(event) else {
        return Err(Stop::Print);
    };
    match answer {
        Ok(Reply::Older) => Err(Stop::Older),
        Ok(Reply::Broken(_)) => Err(Stop::Broken),
        Ok(reply) => Ok(reply),
        Err(refusal) => Err(Stop::Refused(refusal)),
    }
}

/// Passes an event to the feed, and its answer to the observer.
pub fn handle_event<K: Keep, O: Observe>(
    feed: &mut Feed<K>,
    event: &Event<'_>,
    out: &mut O,
) -> Result<Reply, Stop>
    ensures right { HasRightAnswer (λ answer. (result ≡ response_or_stop answer) ⊎ (result ≡ Err Stop.Print))
        (recorded feed.old) (event_of event.now) (recorded feed.new) }
    ensures line { HasRightAnswer (λ answer. IsPrintedAs (O.lines out.old) (O.lines out.new) answer result)
        (recorded feed.old) (event_of event.now) (recorded feed.new) }
    ensures room { most_of feed.new ≡ most_of feed.old }
    ensures caused { IfErr result (λ stop. HasCause (O.has_failed out.new) None stop) }
    ensures kept { IsTrue (O.has_failed out.old) → IsTrue (O.has_failed out.new) }
{
    let answer = feed.handle(event);
    report_answer(answer, out)
}

// Returns whether the feed reports new bytes.
fn has_new_bytes(reply: Reply) -> bool
    ensures { result ≡ has_new_bytes reply }
{
    match reply {
        Reply::Stored { missing: _ } | Reply::Activated => true,
        _ => false,
    }
}

/// Passes a piece to the feed, and returns whether it had new bytes.
pub fn handle_piece<K: Keep, O: Observe>(
    feed: &mut Feed<K>,
    name: &ReleaseName,
    first: u64,
    total: Option<u64>,
    bytes: &[u8],
    out: &mut O,
) -> Result<bool, Stop>
    ensures right { HasRightAnswer
        (λ answer. (result ≡ piece_result (response_or_stop answer)) ⊎ (result ≡ Err Stop.Print))
        (recorded feed.old) (Piece name.now first total bytes.now) (recorded feed.new) }
    ensures room { most_of feed.new ≡ most_of feed.old }
    ensures caused { IfErr result (λ stop. HasCause (O.has_failed out.new) None stop) }
{
    let event = Event::Piece {
        name,
        first,
        total,
        bytes,
    };
    let reply = handle_event(feed, &event, out)?;
    Ok(has_new_bytes(reply))
}

// Returns whether the next piece of a whole file follows this answer.
fn is_followed(answer: Result<Reply, Refusal>) -> bool
    ensures { result ≡ is_followed answer }
{
    matches!(answer, Ok(Reply::Stored { missing: _ } | Reply::Repeated))
}

// Adds the news of a piece to those of the pieces before it. The first stop stays.
fn add_news(taken: Result<bool, Stop>, reply: Result<Reply, Stop>) -> Result<bool, Stop>
    ensures { result ≡ add_news taken reply }
{
    Ok(taken? | has_new_bytes(reply?))
}

// Passes the whole file to the feed in pieces, in order, up to the first answer that no piece follows.
fn handle_whole<K: Keep, O: Observe>(
    feed: &mut Feed<K>,
    name: &ReleaseName,
    bytes: &[u8],
    out: &mut O,
) -> Result<bool, Stop>
    ensures owed { IsSubmitted name.now Phase.Offered (Ok (Got.Whole bytes.now))
        (λ k. IfErr result (λ stop. IsStoppedAt name.now stop k)) (recorded feed.old) (recorded feed.new) }
    ensures room { most_of feed.new ≡ most_of feed.old }
    ensures caused { IfErr result (λ stop. HasCause (O.has_failed out.new) None stop) }
{
    let total = bytes.len();
    let mut first = 0;
    let mut taken = Ok(false);
    'pieces: while first < total {
        let end = first + (total - first).min(PIECE_LIMIT);
        let event = Event::Piece {
            name,
            first: first as u64,
            total: Some(total as u64),
            bytes: &bytes[first..end],
        };
        let answer = feed.handle(&event);
        taken = add_news(taken, report_answer(answer, out));
        if !is_followed(answer) {
            return taken;
        }
        first = end;
    }
    taken
}

/// Passes the result of a GET to the feed, and returns whether it had new bytes.
pub fn handle_response<K: Keep, O: Observe>(
    feed: &mut Feed<K>,
    name: &ReleaseName,
    got: &Got,
    out: &mut O,
) -> Result<bool, Stop>
    ensures owed { IsSubmitted name.now Phase.Offered (Ok got.now)
        (λ k. IfErr result (λ stop. IsStoppedAt name.now stop k)) (recorded feed.old) (recorded feed.new) }
    ensures piece { (first : ℕ) (total : Option ℕ) (bytes : List ℕ) → got.now ≡ Got.Piece first total bytes
        → HasRightAnswer (λ answer. (result ≡ piece_result (response_or_stop answer)) ⊎ (result ≡ Err Stop.Print))
        (recorded feed.old) (Piece name.now first total bytes) (recorded feed.new) }
    ensures room { most_of feed.new ≡ most_of feed.old }
    ensures caused { IfErr result (λ stop. HasCause (O.has_failed out.new) None stop) }
{
    match got {
        Got::Piece {
            first,
            total,
            bytes,
        } => handle_piece(feed, name, *first, *total, bytes.as_slice(), out),
        Got::Whole { bytes } => handle_whole(feed, name, bytes.as_slice(), out),
        Got::Missing => match out.observe(FetchEvent::Missing) {
            Ok(()) => Err(Stop::Missing),
            Err(Unprinted) => Err(Stop::Print),
        },
        Got::Unsatisfied { total: _ } => match out.observe(FetchEvent::Unsatisfied) {
            Ok(()) => Err(Stop::Unsatisfied),
            Err(Unprinted) => Err(Stop::Print),
        },
        Got::Size(_) => Ok(false),
    }
}

// Reports a failed request to the feed, unless there was no connection.
fn report_loss<K: Keep, O: Observe>(
    feed: &mut Feed<K>,
    name: &ReleaseName,
    why: RequestFault,
    out: &mut O,
) -> Stop
    ensures owed { (phase : Phase) → phase ≢ Phase.Stopped → IsSubmitted name.now phase (Err why)
        (λ k. ((result ≡ Stop.Request why) ⊎ (result ≡ Stop.Print)) × IsStoppedAt name.now result k)
        (recorded feed.old) (recorded feed.new) }
    ensures kept { (fault : DialFault) → why ≡ RequestFault.Dial fault → recorded feed.new ≡ recorded feed.old }
    ensures room { most_of feed.new ≡ most_of feed.old }
    ensures caused { (refused : Option DialFault)
        → ((fault : DialFault) → why ≡ RequestFault.Dial fault → refused ≡ Some fault)
        → HasCause (O.has_failed out.new) refused result }
{
    match why {
        RequestFault::Dial(_) => Stop::Request(why),
        RequestFault::Http(_) => match handle_event(feed, &Event::Lost { name }, out) {
            Ok(_) => Stop::Request(why),
            Err(stop) => stop,
        },
    }
}

// Offers the release to the feed.
fn offer_size<K: Keep, O: Observe>(
    feed: &mut Feed<K>,
    name: &ReleaseName,
    size: u64,
    out: &mut O,
) -> Result<(), Stop>
    ensures right { HasRightAnswer
        (λ answer. (result ≡ offer_result (response_or_stop answer)) ⊎ (result ≡ Err Stop.Print))
        (recorded feed.old) (Offered name.now size) (recorded feed.new) }
    ensures room { most_of feed.new ≡ most_of feed.old }
    ensures caused { IfErr result (λ stop. HasCause (O.has_failed out.new) None stop) }
    ensures kept { IsTrue (O.has_failed out.old) → IsTrue (O.has_failed out.new) }
{
    let _reply = handle_event(feed, &Event::Offered { name, size }, out)?;
    Ok(())
}

// Returns why the first of two parts stopped, or else the result of the second.
fn first_stop(first: Result<(), Stop>, second: Result<(), Stop>) -> Result<(), Stop>
    ensures { result ≡ first_stop first second }
{
    first?;
    second
}

// A round without new bytes stops the fetch.
fn require_progress(taken: Result<bool, Stop>) -> Result<(), Stop>
    ensures { result ≡ round_result taken }
{
    match taken {
        Ok(true) => Ok(()),
        Ok(false) => Err(Stop::NoProgress),
        Err(stop) => Err(stop),
    }
}

// Passes the length that the response to a HEAD stated to the observer, or why there is none.
fn report_size<O: Observe>(got: &Got, out: &mut O) -> Result<(), Stop>
    ensures line { (size : ℕ) → got.now ≡ Got.Size size
        → IfOk result (λ done. HasLine (O.lines out.old) (O.lines out.new) (event_text (Size size))) }
    ensures given { IfOk result (λ done. (size : ℕ) × (got.now ≡ Got.Size size)) }
    ensures stops { IfErr result (λ stop. (stop ≡ Stop.Print)
        ⊎ (((size : ℕ) → got.now ≢ Got.Size size) × ((stop ≡ Stop.Missing) ⊎ (stop ≡ Stop.NoProgress)))) }
    ensures caused { IfErr result (λ stop. HasCause (O.has_failed out.new) None stop) }
{
    let (event, outcome) = match got {
        Got::Size(size) => (FetchEvent::Size(*size), Ok(())),
        Got::Missing => (FetchEvent::Missing, Err(Stop::Missing)),
        _ => return Err(Stop::NoProgress),
    };
    match out.observe(event) {
        Ok(()) => outcome,
        Err(Unprinted) => Err(Stop::Print),
    }
}

/// Takes the response to a HEAD: reports the length that it states, and offers the release to the feed.
pub fn take_length<K: Keep, O: Observe>(
    feed: &mut Feed<K>,
    name: &ReleaseName,
    reply: &Result<Got, RequestFault>,
    out: &mut O,
) -> Result<(), Stop>
    ensures owed { IsSubmitted name.now Phase.New reply.now
        (λ k. IfErr result (λ stop. IsStoppedAt name.now stop k)) (recorded feed.old) (recorded feed.new) }
    ensures opens { (file : List ℕ) → HasLength file reply.now → IsFetchable file
        → IsOpened name.now file result (recorded feed.old) (recorded feed.new) }
    ensures room { most_of feed.new ≡ most_of feed.old }
    ensures caused { (refused : Option DialFault)
        → ((fault : DialFault) → reply.now ≡ Err (RequestFault.Dial fault) → refused ≡ Some fault)
        → IfErr result (λ stop. HasCause (O.has_failed out.new) refused stop) }
{
    match reply {
        Ok(got) => {
            let reported = report_size(got, out);
            let Got::Size(size) = got else {
                return reported;
            };
            let offered = offer_size(feed, name, *size, out);
            first_stop(reported, offered)
        }
        Err(why) => Err(report_loss(feed, name, *why, out)),
    }
}

/// Takes the response to a GET: passes the bytes received to the feed.
pub fn take_range<K: Keep, O: Observe>(
    feed: &mut Feed<K>,
    name: &ReleaseName,
    reply: &Result<Got, RequestFault>,
    out: &mut O,
) -> Result<(), Stop>
    ensures owed { IsSubmitted name.now Phase.Offered reply.now
        (λ k. IfErr result (λ stop. IsStoppedAt name.now stop k)) (recorded feed.old) (recorded feed.new) }
    ensures fills { (file : List ℕ) (piece first last : ℕ) → HasRange file first last reply.now → IsFetchable file
        → IsFilled name.now file piece first last result (recorded feed.old) (recorded feed.new) }
    ensures room { most_of feed.new ≡ most_of feed.old }
    ensures caused { (refused : Option DialFault)
        → ((fault : DialFault) → reply.now ≡ Err (RequestFault.Dial fault) → refused ≡ Some fault)
        → IfErr result (λ stop. HasCause (O.has_failed out.new) refused stop) }
{
    match reply {
        Ok(got) => require_progress(handle_response(feed, name, got, out)),
        Err(why) => Err(report_loss(feed, name, *why, out)),
    }
}

//! The loop of a fetch: request the size, offer the release, then request missing ranges until none is left.
ghost use Rattle.std.specs.Prelude.{ℕ, List, ◌≡◌, ◌≤◌, ◌⊎◌, ◌||◌, IsTrue, Some, Ok, Err, IfErr, IfSome, OnOk};
ghost use Rattle.feed_model.specs.History.{History, IsGood, IsPassed};
ghost use Rattle.feed_model.specs.Content.{IsContent};
ghost use Rattle.feed_releases.specs.Feeds.{most_of, recorded};
ghost use Rattle.feed_fetch.specs.Answers.{status_of, HasCause, IsExcused, IsStoppedAt};
ghost use Rattle.feed_fetch.specs.Effects.{IsExtension, IsFetchEvent, EndsWithStatus, ServesFile, IsFetchable};
ghost use Rattle.feed_fetch.specs.Effects.{IsOpenTo, IsFetched, IsReported, IsAllFetched};
ghost use Rattle.feed_fetch.specs.FetchEnds.{stop_lines};
ghost use Rattle.feed_fetch.specs.Steps.{IsResponseOf};
ghost use Rattle.feed_fetch.specs.Printing.{has_failed, HasAppended, IfPrinted};
ghost use Rattle.feed_http.specs.RequestTexts.{is_host};
ghost use Rattle.feed_limits.specs.Limits.{piece_limit};

use crate::events::Observe;
use crate::machine::{Fetch, FetchRequest, Next, Phase};
use crate::printer::{Printer, Unprinted};
use crate::requests::{request_range, request_size};
use crate::stop::{RequestFault, Stop};
use feed_dial::{Dial, DialFault};
use feed_http::Got;
use feed_keep::Keep;
use feed_limits::FILE_LIMIT;
use feed_names::ReleaseName;
use feed_releases::Feed;
use std::alloc::Global;
use std::io::Write;

// Makes a request and reads the response.
fn send<D: Dial>(
    alloc: Global,
    dial: &mut D,
    host: &[u8],
    name: &ReleaseName,
    request: FetchRequest,
) -> Result<Got, RequestFault>
    requires { IsTrue (is_host host.now) }
    ensures reply { IsResponseOf D.responses host.now name.now request result }
    ensures refused { (fault : DialFault) → result ≡ Err (RequestFault.Dial fault)
        → D.last_fault dial.new ≡ Some fault }
{
    match request {
        FetchRequest::Length => request_size(alloc, dial, host, name),
        FetchRequest::Range { first, last } => request_range(alloc, dial, host, name, first, last),
    }
}

/// Fetches the file of a release: runs a new `Fetch` over a dial, with one connection for each request. Passes each
/// event to `out`.
pub fn fetch_file<D: Dial, K: Keep, O: Observe>(
    alloc: Global,
    dial: &mut D,
    feed: &mut Feed<K>,
    host: &[u8],
    name: &ReleaseName,
    mut fetch: Fetch,
    out: &mut O,
) -> Result<(), Stop>
    requires host { IsTrue (is_host host.now) }
    requires new { fetch.phase ≡ Phase.New }
    ensures extends { IsExtension (IsFetchEvent D.responses host.now name.now)
        (λ k. IfErr result (λ stop. IsStoppedAt name.now stop k)) (recorded feed.old) (recorded feed.new) }
    ensures gets { (file : List ℕ) → ServesFile D.responses name.now file → IsFetchable file
        → IsFetched name.now file result (recorded feed.old) (recorded feed.new) }
    ensures done { OnOk result ((h : History) → IsContent (recorded feed.new) h → IsAllFetched name.now h) }
    ensures caused { IfErr result (λ stop. HasCause (O.has_failed out.new) (D.last_fault dial.new) stop) }
{
    // Each round but the first fills a place, so a file needs no more rounds than this.
    'rounds: for _ in 0..FILE_LIMIT + 2 {
        let Next::Ask(request) = fetch.next(feed, name) else {
            return Ok(());
        };
        let reply = send(alloc, dial, host, name, request);
        if let Err(stop) = fetch.take(feed, name, &reply, out) {
            return Err(stop);
        }
    }
    Err(Stop::NoProgress)
}

/// Returns whether the release is the active one of its package.
pub fn is_reported<K: Keep>(feed: &Feed<K>, name: &ReleaseName) -> bool
    ensures reported { (h : History) → IsContent (recorded feed.now) h → IsTrue result → IsReported name.now h }
    ensures found { (h : History) → IsContent (recorded feed.now) h → IsReported name.now h → IsTrue result }
    ensures good { (h : History) → IsContent (recorded feed.now) h → ¬ (IsPassed h name.now)
        → IsGood h name.now → IsTrue result }
{
    match feed.report(name.package()) {
        Some(active) => active.day() == name.day(),
        None => false,
    }
}

/// Prints why a fetch stopped, if that is a fault, as `kbfeed: ` and its name. Returns the exit status.
pub fn print_stop<F: Write>(stop: Stop, faults: &mut Printer<F>) -> u8
    ensures status { (result ≡ status_of stop) ⊎ ((result ≡ 3) × IsTrue (has_failed faults.new)) }
    ensures kept { IsTrue (has_failed faults.old) → IsTrue (has_failed faults.new) }
    ensures excused { IsExcused stop → result ≡ 3 }
    ensures lines { IfPrinted faults.new (IfSome (stop_lines stop) (HasAppended F.contents faults.old faults.new)) }
{
    let printed = match stop {
        Stop::NoProgress => faults.print("kbfeed: NoProgress"),
        Stop::Request(RequestFault::Dial(fault)) => faults.print(format_args!("kbfeed: {fault}")),
        Stop::Request(RequestFault::Http(fault)) => faults.print(format_args!("kbfeed: {fault}")),
        _ => Ok(()),
    };
    match printed {
        Ok(()) => stop.status(),
        Err(Unprinted) => 3,
    }
}

/// Fetches the file of a release as `fetch_file` does, from a host that `is_host` accepts (1 to 255 bytes), with
/// requests of 1 to 1,048,576 places. Passes the events to `out`, and prints a fault to `faults`, as `kbfeed: ` and its
/// name. Returns the exit status: 0 if the release, or a later one, is then reported; 1 because of the peer or the
/// file; 3 if a connection, device or print failed, or memory ran out. The bytes received are stored, and a further
/// fetch resumes from there.
pub fn fetch_with<D: Dial, K: Keep, O: Observe, F: Write>(
    alloc: Global,
    dial: &mut D,
    feed: &mut Feed<K>,
    host: &[u8],
    name: &ReleaseName,
    piece: u64,
    out: &mut O,
    faults: &mut Printer<F>,
) -> u8
    requires host { IsTrue (is_host host.now) }
    requires least { 1 ≤ piece }
    requires most { piece ≤ piece_limit }
    ensures extends { IsExtension (IsFetchEvent D.responses host.now name.now)
        (EndsWithStatus name.now result (O.has_failed out.new || has_failed faults.new) (D.last_fault dial.new))
        (recorded feed.old) (recorded feed.new) }
    ensures gets { (file : List ℕ) → ServesFile D.responses name.now file → IsFetchable file → (h : History)
        → IsContent (recorded feed.old) h → IsOpenTo (most_of feed.old) name.now file h → (result ≡ 0) ⊎ (result ≡ 3) }
{
    let fetch = Fetch::new(piece);
    let outcome = fetch_file(alloc, dial, feed, host, name, fetch, out);
    let Ok(()) = out.finish() else {
        return 3;
    };
    match outcome {
        Ok(()) => { if is_reported(feed, name) { 0 } else { 1 } }
        Err(stop) => print_stop(stop, faults),
    }
}

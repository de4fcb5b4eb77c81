//! The effect of the response that arrived on its fetch.
ghost use Rattle.std.specs.Prelude.{◌≡◌};
ghost use Rattle.node_service.specs.Runs.{IsLaterNode};

use crate::exchange::{FetchStep, RunningExchange};
use crate::fetcher::{FeedNode, is_done};
use feed_fetch::{FetchEnd, FetchEvent, Observe, Printer, Unprinted, is_reported};
use feed_keep::Keep;
use feed_model::Reply;
use node_file_checks::{FileCheck, ListCounts, Mismatch, active_counts, rows_before};
use node_machine::Exchange;
use std::alloc::Global;
use std::io::Write;

// The lines of the events of a fetch, up to the one by which the feed switches to the release.
#[derive(Drop)]
pub(crate) struct EventLines {
    pub(crate) lines: Printer<Vec<u8>>,
    pub(crate) has_stored: bool,
    pub(crate) has_switched: bool,
}

// Returns whether the keeper of the feed committed a change at an event.
fn has_stored(event: FetchEvent) -> bool {
    match event {
        FetchEvent::Accepted(reply) => matches!(
            reply,
            Reply::Noted | Reply::Stored { .. } | Reply::Activated | Reply::Broken(_)
        ),
        _ => false,
    }
}

impl Observe for EventLines {
    ghost use Rattle.feed_fetch.specs.Printing.{has_failed};

    ghost has_failed = { λ events. has_failed events.lines };

    fn observe(&mut self, event: FetchEvent) -> Result<(), Unprinted> {
        self.has_stored = self.has_stored || has_stored(event);
        if let FetchEvent::Accepted(Reply::Activated) = event {
            self.has_switched = true;
            return Ok(());
        }
        self.lines.print(event)
    }

    fn finish(&mut self) -> Result<(), Unprinted> {
        self.lines.finish()
    }
}

// Takes the response, or why there is none. A file that is not the expected one is not submitted.
pub(crate) fn take_response<K: Keep>(
    rt: &HostRuntime,
    node: &mut FeedNode<'_, K>,
    check: &mut FileCheck,
    events: &mut EventLines,
) -> FetchStep
    ensures later { IsLaterNode node.old node.new }
    ensures refused { (mismatch : Mismatch) → result ≡ FetchStep.Refuse mismatch → node.new ≡ node.old }
{
    if let Some(mismatch) = mismatch_of(rt.alloc(), node, check) {
        return FetchStep::Refuse(mismatch);
    }
    let is_too_long = matches!(node.exchange(), Some(Exchange::TooLong));
    match node.take_response(check.read_size().is_some(), events) {
        _ if is_too_long => FetchStep::End(FetchEnd::NoRanges),
        Ok(()) => FetchStep::Send,
        Err(stop) => FetchStep::End(FetchEnd::Stopped(stop)),
    }
}

// Returns how the file of a response differs from the expected one, if it does, or if its sum or its rows could not be
// known in time.
pub(crate) fn mismatch_of<K: Keep>(
    alloc: Global,
    node: &FeedNode<'_, K>,
    check: &mut FileCheck,
) -> Option<Mismatch> {
    let fetching = node.fetching()?;
    let Some(Exchange::Received(Ok(got))) = node.exchange() else {
        return None;
    };
    match check.mismatch_of(alloc, node.feed(), &fetching.name, got) {
        None if !lacks_end(node, check) => Some(check.range_mismatch()),
        mismatch => mismatch,
    }
}

// Returns how the file of a part differs from the expected one, in the same way.
pub(crate) fn part_mismatch<K: Keep>(
    alloc: Global,
    node: &FeedNode<'_, K>,
    check: &mut FileCheck,
) -> Option<Mismatch> {
    let fetching = node.fetching()?;
    let part = node.part()?;
    match check.part_mismatch(alloc, node.feed(), &fetching.name, &part) {
        None if !lacks_end(node, check) => Some(check.range_mismatch()),
        mismatch => mismatch,
    }
}

// Returns whether the whole file, if it is read from its front on, is known before its last missing byte is submitted:
// the first range that the feed lacks goes to its end, or it lacks none.
pub(crate) fn lacks_end<K: Keep>(node: &FeedNode<'_, K>, check: &FileCheck) -> bool {
    let (Some(size), Some(fetching)) = (check.read_size(), node.fetching()) else {
        return true;
    };
    match node.feed().next_range(&fetching.name, u64::MAX) {
        Some((_, last)) => last.saturating_add(1) >= size,
        None => true,
    }
}

// Takes the part of a whole file that has arrived. No more parts are taken once nothing is missing.
pub(crate) fn take_part<K: Keep>(
    rt: &HostRuntime,
    node: &mut FeedNode<'_, K>,
    running: &mut RunningExchange,
    events: &mut EventLines,
) -> FetchStep
    ensures later { IsLaterNode node.old node.new }
    ensures refused { (mismatch : Mismatch) → result ≡ FetchStep.Refuse mismatch → node.new ≡ node.old }
{
    if let Some(mismatch) = part_mismatch(rt.alloc(), node, &mut running.check) {
        return FetchStep::Refuse(mismatch);
    }
    match node.take_part(events) {
        Ok(is_new) => {
            running.is_new = running.is_new || is_new;
            if is_done(node) {
                FetchStep::Send
            } else {
                FetchStep::Again
            }
        }
        Err(stop) => FetchStep::End(FetchEnd::Stopped(stop)),
    }
}

// Returns whether the node answers from the release that is fetched.
pub(crate) fn is_answered<K: Keep>(node: &FeedNode<'_, K>) -> bool {
    match node.fetching() {
        Some(fetching) => is_reported(node.feed(), &fetching.name),
        None => false,
    }
}

// Returns the counts of the active release of the package that is fetched, if there is one.
pub(crate) fn counts_of_active<K: Keep>(node: &FeedNode<'_, K>) -> Option<ListCounts> {
    let fetching = node.fetching()?;
    active_counts(node.feed(), fetching.name.package())
}

// Returns the rows of this release.
pub(crate) fn rows_of_active<K: Keep>(node: &FeedNode<'_, K>) -> usize {
    rows_before(counts_of_active(node))
}

// Prints the counts of a list, and the rows of the release that was active before.
pub(crate) fn print_counts(lines: &mut Printer<Vec<u8>>, counts: ListCounts, before: usize) {
    let ListCounts { rows, aside } = counts;
    let _ = lines.print(format_args!("rows {rows} aside {aside}, before {before}"));
}

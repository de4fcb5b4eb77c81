//! How a fetch of a node ends: the last lines of the response to the client that requested it.
ghost use Rattle.std.specs.Prelude.{◌≡◌, Option, IfSome, IsTrue};
ghost use Rattle.feed_model.specs.Content.{IsContent};
ghost use Rattle.feed_model.specs.History.{History};
ghost use Rattle.feed_releases.specs.Feeds.{recorded};
ghost use Rattle.feed_releases.specs.Reason.{HasReason};
ghost use Rattle.feed_fetch.specs.FetchEnds.{end_text, IsEndStatus, reason_lines, status_text};
ghost use Rattle.feed_fetch.specs.Printing.{has_failed, HasAppended, HasPrinted, IfPrinted, IsLastLine};

use crate::fetch_loop::{is_reported, print_stop};
use crate::printer::Printer;
use crate::stop::Stop;
use feed_kbart::BadFile;
use feed_keep::Keep;
use feed_names::{NameFault, ReleaseName};
use feed_releases::Feed;
use std::io::Write;

/// How a fetch of a node ended.
#[derive(Clone, Copy)]
pub enum FetchEnd {
    /// No range is missing.
    Done,
    /// The fetch stopped.
    Stopped(Stop),
    /// The server sends a whole file in place of a range, without its length and with more than 8,388,608 bytes.
    NoRanges,
    /// A client that has the token asked the node to end it.
    Canceled,
    /// It took longer than a fetch of the node may take.
    TimedOut,
}

/// Returns the exit status that `kbfeed fetch` has after such an end: 0 if the release or a later one is reported, 1
/// because of the peer or the file, 3 if a connection or device failed, or memory ran out. It is 4 if the node ended
/// the fetch: the bytes received are kept, and another fetch continues.
pub fn status_after<K: Keep>(feed: &Feed<K>, name: &ReleaseName, end: FetchEnd) -> u8
    ensures { (h : History) → IsContent (recorded feed.now) h → IsEndStatus name.now end result h }
{
    match end {
        FetchEnd::Done => { if is_reported(feed, name) { 0 } else { 1 } }
        FetchEnd::Stopped(stop) => stop.status(),
        FetchEnd::NoRanges => 1,
        FetchEnd::Canceled | FetchEnd::TimedOut => 4,
    }
}

/// Prints the last lines of the response: the fault, if there is one, or why a release is broken that was complete
/// before, and then the exit status, which it returns.
pub fn print_end<K: Keep, O: Write>(
    feed: &Feed<K>,
    name: &ReleaseName,
    end: FetchEnd,
    lines: &mut Printer<O>,
) -> u8
    ensures status { (h : History) → IsContent (recorded feed.now) h → IsEndStatus name.now end result h }
    ensures lines { (h : History) → IsContent (recorded feed.now) h
        → IfPrinted lines.new ((why : Option BadFile) × HasReason h name.now why
        × IfSome (end_text end why result) (HasAppended O.contents lines.old lines.new)) }
    ensures last { IfPrinted lines.new (IsLastLine O.contents lines.new (status_text result)) }
{
    print_reason(end, feed.reason(name), lines);
    let status = status_after(feed, name, end);
    print_status(status, lines);
    status
}

// Prints the fault, if there is one, or why the release is broken.
fn print_reason<O: Write>(end: FetchEnd, why: Option<BadFile>, lines: &mut Printer<O>)
    ensures kept { IsTrue (has_failed lines.old) → IsTrue (has_failed lines.new) }
    ensures lines { IfPrinted lines.new
        (IfSome (reason_lines end why) (HasAppended O.contents lines.old lines.new)) }
{
    let _ = match (end, why) {
        (FetchEnd::Done, None) => Ok(()),
        (FetchEnd::Done, Some(why)) => lines.print(format_args!("broken {why}")),
        (FetchEnd::Stopped(stop), _) => {
            print_stop(stop, lines);
            Ok(())
        }
        (FetchEnd::NoRanges, _) => lines.print("kbfeed: NoRanges"),
        (FetchEnd::Canceled, _) => lines.print("kbfeed: Canceled"),
        (FetchEnd::TimedOut, _) => lines.print("kbfeed: FetchTimeout"),
    };
}

/// Prints why a name is invalid, and the status that `kbfeed fetch` has for it, which it returns.
pub fn print_name_fault<O: Write>(fault: NameFault, lines: &mut Printer<O>) -> u8
    ensures status { result ≡ 2 }
    ensures last { IfPrinted lines.new (IsLastLine O.contents lines.new (status_text result)) }
{
    let _ = lines.print(format_args!("kbfeed: {fault}"));
    print_status(2, lines);
    2
}

fn print_status<O: Write>(status: u8, lines: &mut Printer<O>)
    ensures kept { IsTrue (has_failed lines.old) → IsTrue (has_failed lines.new) }
    ensures line { IfPrinted lines.new (HasPrinted O.contents lines.old lines.new (status_text status)) }
{
    let _ = lines.print(format_args!("status {status}"));
}

//! `kbfeed fetch`: a node fetches a release, resumes, and switches to it.
use crate::database::{Database, close_keeper, open_feed};
use crate::progress::ProgressLine;
use cmd_files::{Advice, note_address, note_listener, parse_meant_name};
use feed_console::{Console, FAILED, MISUSED};
use feed_dial::{Cause, TcpDial};
use feed_fetch::{Printer, fetch_with, is_reported};
use feed_http::is_host;
use feed_keep::Keep;
use feed_limits::PIECE_LIMIT;
use feed_names::ReleaseName;
use feed_options::FetchOptions;
use feed_releases::Feed;
use node_file_checks::{ListCounts, active_counts, rows_before};
use std::io::{IsTerminal, Write};

/// Fetches the release of a name from a host and port, as `fetch_with` does, into a database. It prints each event to
/// `out` at once; if standard error is a terminal, a line there shows how far it is. A note has the counts of a release
/// that the feed switches to. The first fault is reported: of the host (`Host`) and of the name, status 2, and then of
/// the database and of the fetch.
pub fn fetch_release<D: Database, O: Write, F: Write + Drop>(
    database: &D,
    options: FetchOptions<'_>,
    console: &mut Console<'_, O, F>,
) -> u8 {
    let rt = console.rt;
    let addr = options.addr;
    if !is_host(addr.as_bytes()) {
        let status = console.faults.report_with(
            "Host",
            addr,
            "it is no host and port, as 127.0.0.1:8080",
            MISUSED,
        );
        note_address(addr, console);
        return status;
    }
    let name = match parse_meant_name(options.name, MISUSED, Advice::Give, console) {
        Ok(name) => name,
        Err(status) => return status,
    };
    let mut feed = match open_feed(database, console) {
        Ok(feed) => feed,
        Err(status) => return status,
    };
    let was_reported = is_reported(&feed, &name);
    let before = active_rows(&feed, &name);
    let cause = Cause::new();
    let mut dial = TcpDial::new(rt, addr, options.time, &cause);
    let screen = if rt.stderr().is_terminal() {
        Some(rt.stderr())
    } else {
        None
    };
    let mut out = ProgressLine::new(rt, &mut console.out, screen);
    let mut status = fetch_with(
        rt.alloc(),
        &mut dial,
        &mut feed,
        addr.as_bytes(),
        &name,
        options.piece.max(1).min(PIECE_LIMIT as u64),
        &mut out,
        &mut Printer::new(console.faults.out()),
    );
    match (out.into_fault(), cause.into_inner()) {
        (Some(fault), _) => status = console.faults.check_print(Err(fault), FAILED),
        (None, Some(cause)) if status == FAILED => {
            let kind = cause.kind();
            console.faults.note(addr, cause);
            note_address(addr, console);
            note_listener(addr, kind, console);
        }
        _ => {}
    }
    if !was_reported {
        note_counts(&feed, &name, options.name, before, console);
    }
    close_keeper(database, feed.restart(), console);
    status
}

// Returns the rows of the active release of the package of a name, or 0 if the package has no release.
fn active_rows<K: Keep>(feed: &Feed<K>, name: &ReleaseName) -> usize {
    rows_before(active_counts(feed, name.package()))
}

// Notes the counts of a release that the feed has switched to.
fn note_counts<K: Keep, O: Write, F: Write + Drop>(
    feed: &Feed<K>,
    name: &ReleaseName,
    text: &str,
    before: usize,
    console: &mut Console<'_, O, F>,
) {
    if !is_reported(feed, name) {
        return;
    }
    if let Some(ListCounts { rows, aside }) = active_counts(feed, name.package()) {
        console.faults.note(
            text,
            format_args!("rows {rows} aside {aside}, before {before}"),
        );
    }
}

//! The line on standard error by which a node reports the end of a fetch.
use crate::fetcher::FeedNode;
use feed_fetch::{FetchEnd, RequestFault, Stop};
use feed_keep::Keep;
use feed_names::ReleaseName;
use feed_releases::Feed;
use node_state::FetchOutcome;
use std::alloc::Global;
use std::io;
use std::io::{ErrorKind, Write};
use std::time::Instant;

/// The facts of a fetch, for its line.
#[derive(Clone, Copy)]
pub struct FetchReport<'a> {
    /// The server.
    pub addr: &'a str,
    /// When it began.
    pub begun: Option<Instant>,
    /// Whether the node answered from the release then.
    pub was_reported: bool,
    /// The rows of the active release of its package then.
    pub before: usize,
    /// The bytes of the list that have arrived.
    pub bytes: u64,
    /// The system's error, if the last connection failed.
    pub fault: Option<ErrorKind>,
}

impl<'a> FetchReport<'a> {
    /// Begins now.
    pub fn new(
        rt: &HostRuntime,
        addr: &'a str,
        was_reported: bool,
        before: usize,
    ) -> FetchReport<'a> {
        FetchReport {
            addr,
            begun: Instant::now(rt).ok(),
            was_reported,
            before,
            bytes: 0,
            fault: None,
        }
    }

    /// Adds the bytes of the list that have arrived, before the feed gets them.
    pub fn add<K: Keep>(&mut self, node: &FeedNode<'_, K>) {
        if let Some(exchange) = node.exchange() {
            self.bytes = self.bytes.saturating_add(exchange.file_bytes() as u64);
        }
    }

    // Returns the milliseconds since the fetch began.
    fn millis(&self, rt: &HostRuntime) -> u64 {
        let Some(begun) = self.begun else {
            return 0;
        };
        match Instant::now(rt) {
            Ok(now) => {
                let passed = now.saturating_duration_since(begun).as_millis();
                passed.min(u64::MAX as u128) as u64
            }
            Err(_) => 0,
        }
    }

    /// Writes the line of a fetch that ended: the release, the server, the outcome with its reason and the system's
    /// error, the bytes and the seconds.
    pub fn write_line<W: Write>(
        &self,
        rt: &HostRuntime,
        out: &mut W,
        name: &[u8],
        outcome: FetchOutcome,
        reason: &[u8],
    ) -> io::Result<()> {
        out.write_all(b"kbfeed: fetch ")?;
        out.write_all(name)?;
        let word = outcome.name();
        let addr = self.addr;
        write!(out, " from {addr}: {word}")?;
        out.write_all(reason)?;
        if let Some(fault) = self.fault {
            write!(out, ": {fault}")?;
        }
        let bytes = self.bytes;
        let millis = self.millis(rt);
        let seconds = millis / 1_000;
        let rest = millis % 1_000;
        writeln!(out, ", {bytes} bytes, {seconds}.{rest:03} seconds")
    }
}

/// Returns why a fetch ended so, behind a space, if its outcome does not say it. If memory runs out, a part is missing.
pub fn reason_of<K: Keep>(
    alloc: Global,
    feed: &Feed<K>,
    name: &ReleaseName,
    end: FetchEnd,
) -> Vec<u8> {
    let mut out = Vec::new(alloc);
    let _ = match end {
        FetchEnd::Done | FetchEnd::Stopped(Stop::Broken) => match feed.reason(name) {
            Some(why) => write!(&mut out, " {why}"),
            None => Ok(()),
        },
        FetchEnd::Stopped(stop) => write_stop(&mut out, stop),
        FetchEnd::NoRanges => out.write_all(b" NoRanges"),
        FetchEnd::Canceled => out.write_all(b" Canceled"),
        FetchEnd::TimedOut => out.write_all(b" FetchTimeout"),
    };
    out
}

fn write_stop<W: Write>(out: &mut W, stop: Stop) -> io::Result<()> {
    match stop {
        Stop::Refused(refusal) => write!(out, " {refusal}"),
        Stop::Request(RequestFault::Dial(fault)) => write!(out, " {fault}"),
        Stop::Request(RequestFault::Http(fault)) => write!(out, " {fault}"),
        Stop::Unsatisfied => out.write_all(b" Unsatisfied"),
        Stop::NoProgress => out.write_all(b" NoProgress"),
        Stop::Print => out.write_all(b" Memory"),
        Stop::Older | Stop::Broken | Stop::Missing => Ok(()),
    }
}

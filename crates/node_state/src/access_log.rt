//! The access log of a node, and the counters of its connections and requests.
use crate::clock::unix_seconds;
use crate::node_log::NodeLog;
use crate::node_state::NodeState;
use feed_http_heads::FIELD_LIMIT;
use feed_options::LogOptions;
use httparse::spans::EMPTY_HEADER_SPAN;
use node_connection::{Connection, ResponseSummary};
use node_monitoring::{LogPolicy, LoggedExchange, put_exchange};
use node_request::ReceivedRequest;
use node_server::is_local;
use node_table::{CloseCause, Log};
use std::io::Write;
use std::net::{IpAddr, SocketAddr};

/// A log that has a line for each response, and counts it.
#[derive(Drop)]
pub struct AccessLog<'o, W: Write, F: Write> {
    rt: &'o HostRuntime,
    out: &'o mut NodeLog<W, F>,
    state: &'o NodeState,
    options: LogOptions,
    /// The lines of this turn.
    lines: Vec<u8>,
    /// The address of the peer before, and its text: most lines of a node behind a proxy have the same.
    peer: Option<IpAddr>,
    peer_text: Vec<u8>,
}

impl<'o, W: Write, F: Write> AccessLog<'o, W, F> {
    pub fn new(
        rt: &'o HostRuntime,
        out: &'o mut NodeLog<W, F>,
        state: &'o NodeState,
        options: LogOptions,
    ) -> AccessLog<'o, W, F> {
        AccessLog {
            rt,
            out,
            state,
            options,
            lines: Vec::new(rt.alloc()),
            peer: None,
            peer_text: Vec::new(rt.alloc()),
        }
    }

    fn policy(&self, addr: SocketAddr) -> LogPolicy {
        let is_near = is_local(addr);
        LogPolicy {
            is_proxy: is_near && self.options.is_forwarded,
            has_queries: self.options.has_queries,
            is_local: is_near,
            has_open_reports: self.options.has_open_reports,
        }
    }

    // Keeps the address of a peer as text. If memory runs out, the text is not whole, and is made again for its next
    // line.
    fn note_peer(&mut self, addr: SocketAddr) {
        let ip = addr.ip().to_canonical();
        if self.peer == Some(ip) {
            return;
        }
        self.peer_text.clear();
        self.peer = match write!(&mut self.peer_text, "{ip}") {
            Ok(()) => Some(ip),
            Err(_) => None,
        };
    }

    // Counts a request whose response was sent, in whole or in part, and adds its line. If memory runs out, the line is
    // dropped.
    fn put_response(
        &mut self,
        addr: SocketAddr,
        connection: &Connection,
        summary: ResponseSummary,
        micros: u64,
    ) {
        let unsent = connection.unsent_len();
        self.note_peer(addr);
        let seconds = unix_seconds(self.rt);
        let policy = self.policy(addr);
        let start = self.lines.len();
        let exchange = LoggedExchange {
            peer: &self.peer_text,
            seconds,
            received: connection.request(),
            status: summary.status,
            sent: connection.sent_len() as u64,
            body_sent: summary.body_len.saturating_sub(unsent) as u64,
            micros,
            site: self.state.site_since(self.rt, summary.site, micros),
        };
        if self
            .state
            .record(&mut self.lines, policy, &exchange)
            .is_err()
        {
            self.drop_line(start);
        }
    }

    // Adds the line of a connection that timed out before its request was whole (RFC 9110, section 15.5.9).
    fn put_timeout(&mut self, addr: SocketAddr, received: ReceivedRequest<'_>) {
        self.note_peer(addr);
        let seconds = unix_seconds(self.rt);
        let policy = self.policy(addr);
        let start = self.lines.len();
        let exchange = LoggedExchange {
            peer: &self.peer_text,
            seconds,
            received,
            status: 408,
            sent: 0,
            body_sent: 0,
            micros: 0,
            site: None,
        };
        if put_exchange(&mut self.lines, policy, &exchange).is_err() {
            self.drop_line(start);
        }
    }

    // Drops the line that begins at a place.
    fn drop_line(&mut self, start: usize) {
        self.lines.truncate(start);
        self.state.drop_lines(1);
    }

    /// Prints the notes of the turn on standard error.
    pub fn print_notes(&mut self, notes: &mut Vec<u8>) {
        if !notes.is_empty() {
            self.out.print_notes(notes);
            notes.clear();
        }
    }

    /// Writes the lines of the turn, and counts those that are dropped.
    pub fn flush(&mut self) {
        if !self.lines.is_empty() {
            self.state.drop_lines(self.out.write_lines(&self.lines));
            self.lines.clear();
        }
    }
}

impl<'o, W: Write, F: Write> Log for AccessLog<'o, W, F> {
    fn on_accept(&mut self, _addr: SocketAddr) {
        self.state.accept();
    }

    fn on_response(&mut self, addr: SocketAddr, connection: &Connection, micros: u64) {
        if let Some(summary) = connection.summary() {
            self.put_response(addr, connection, summary, micros);
        }
    }

    fn on_close(
        &mut self,
        addr: SocketAddr,
        connection: &Connection,
        cause: CloseCause,
        micros: u64,
    ) {
        match connection.summary() {
            Some(summary) => self.put_response(addr, connection, summary, micros),
            None => {
                let mut headers = [EMPTY_HEADER_SPAN; FIELD_LIMIT];
                let held = connection.held_request(&mut headers);
                if cause == CloseCause::TimedOut && !held.bytes.is_empty() {
                    self.put_timeout(addr, held);
                }
            }
        }
        self.state.close(cause);
    }
}

//! The line of a request in the access log.
ghost use Rattle.std.specs.Prelude.{◌≡◌, ◌++◌, List, OnOk};
ghost use Rattle.httparse.specs.Grammar.{Field};
ghost use Rattle.feed_http_heads.specs.Fields.{AreWithin, AreFieldsOf};
ghost use Rattle.node_monitoring.specs.LogLines.{line_text};
ghost use Rattle.node_monitoring.specs.Exchanges.{sole_or_empty, shown_referrer, entry_of};

use crate::client::client_of;
use crate::log_entry::{LogEntry, put_line};
use crate::request_line::without_query_part;
use crate::shown_line::shown_line;
use feed_http_heads::Fields;
use node_request::ReceivedRequest;
use std::alloc::AllocError;
use std::marker::Model;

/// The parts that the log shows of the requests of a peer.
#[derive(Clone, Copy)]
pub struct LogPolicy {
    /// Whether the peer is a proxy, which states the address of its client.
    pub is_proxy: bool,
    /// Whether the log shows queries.
    pub has_queries: bool,
    /// Whether the peer is on the same machine.
    pub is_local: bool,
    /// Whether all clients may have reports, and not only those on the same machine.
    pub has_open_reports: bool,
}

/// A request and its response.
#[derive(Clone, Copy)]
pub struct LoggedExchange<'a> {
    /// The address of the peer, as text.
    pub peer: &'a [u8],
    /// The seconds since 1970-01-01.
    pub seconds: u64,
    /// The request, with its body.
    pub received: ReceivedRequest<'a>,
    pub status: u16,
    /// How many bytes of the response were sent.
    pub sent: u64,
    /// How many bytes of its body were sent.
    pub body_sent: u64,
    /// The microseconds from the last byte of the head of the request to the last byte of the response.
    pub micros: u64,
    /// The place of the site that responded among those of the node, or none.
    pub site: Option<usize>,
}

fn sole_or_empty<'b>(fields: &Fields<'b>, name: &[u8]) -> &'b [u8]
    requires { AreWithin fields.now }
    ensures { (list : List Field) → AreFieldsOf fields.now list → result.now ≡ sole_or_empty name.now list }
{
    match fields.sole_value(name) {
        Some(value) => value,
        None => b"",
    }
}

fn shown_referrer(has_queries: bool, url: &[u8]) -> &[u8]
    ensures { result.now ≡ shown_referrer has_queries url.now }
{
    if has_queries {
        url
    } else {
        without_query_part(url)
    }
}

/// Appends the line of a request with these fields, to which the site of this file responded.
pub(crate) fn put_entry(
    out: &mut Vec<u8>,
    policy: LogPolicy,
    exchange: &LoggedExchange<'_>,
    site: &[u8],
    fields: &Fields<'_>,
) -> Result<(), AllocError>
    requires { AreWithin fields.now }
    ensures { OnOk result ((list : List Field) → AreFieldsOf fields.now list
        → out.new.items ≡ out.old.items ++ line_text (entry_of policy exchange.now site.now list)) }
{
    let entry = LogEntry {
        client: client_of(policy.is_proxy, fields, exchange.peer),
        seconds: exchange.seconds,
        line: shown_line(policy.has_queries, &exchange.received),
        status: exchange.status,
        sent: exchange.body_sent,
        referrer: shown_referrer(policy.has_queries, sole_or_empty(fields, b"referer")),
        user_agent: sole_or_empty(fields, b"user-agent"),
        millis: exchange.micros / 1_000,
        site,
    };
    put_line(out, &entry)
}

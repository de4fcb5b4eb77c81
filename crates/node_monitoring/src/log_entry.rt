//! A request and its response, as a line of the log.
ghost use Rattle.std.specs.Prelude.{◌≡◌, ◌++◌, OnOk};
ghost use Rattle.node_monitoring.specs.LogLines.{line_text};

use crate::log_fragment::LogFragment;
use crate::request_line::RequestLine;
use feed_bytes::put_all;
use std::alloc::AllocError;
use std::marker::Model;

/// A request and its response. A text of the client may have any bytes.
#[derive(Drop)]
pub struct LogEntry<'a, 's> {
    /// The address of the client.
    pub client: &'a [u8],
    /// The seconds since 1970-01-01.
    pub seconds: u64,
    pub line: RequestLine<'a>,
    pub status: u16,
    /// The bytes of the response's body that were sent.
    pub sent: u64,
    /// The value of Referer, or nothing.
    pub referrer: &'a [u8],
    /// The value of User-Agent, or nothing.
    pub user_agent: &'a [u8],
    pub millis: u64,
    /// The name of the file of the site that responded, or nothing.
    pub site: &'s [u8],
}

impl<'a, 's> Model for LogEntry<'a, 's> {
    ghost use Rattle.node_monitoring.specs.LogLines.{EntryValue};
    ghost use Rattle.node_monitoring.specs.Queries.{shown_text};

    ghost Value = { EntryValue };

    ghost view = { λ e. record {
      client = e.client.now;
      seconds = e.seconds;
      line = shown_text e.line;
      status = e.status;
      sent = e.sent;
      referrer = e.referrer.now;
      user_agent = e.user_agent.now;
      millis = e.millis;
      site = e.site.now;
    } };
}

/// Writes the line of a request: the address, the time, the request line, the status, the bytes sent, the referrer, the
/// user agent, the milliseconds, and the name of the site's file.
///
/// # Errors
///
/// Running out of memory. A part of the line may be written then.
pub fn put_line(out: &mut Vec<u8>, entry: &LogEntry<'_, '_>) -> Result<(), AllocError>
    ensures { OnOk result (out.new.items ≡ out.old.items ++ line_text entry.now) }
{
    put_all(
        out,
        &[
            LogFragment::Escaped(entry.client),
            LogFragment::Plain(b" - - ["),
            LogFragment::Time(entry.seconds),
            LogFragment::Plain(b" +0000] \""),
            LogFragment::Escaped(entry.line.method),
            LogFragment::Escaped(entry.line.gap),
            LogFragment::Escaped(entry.line.target),
            LogFragment::Escaped(entry.line.gap),
            LogFragment::Escaped(entry.line.version),
            LogFragment::Plain(b"\" "),
            LogFragment::Number(u64::from(entry.status)),
            LogFragment::Plain(b" "),
            LogFragment::Number(entry.sent),
            LogFragment::Plain(b" \""),
            LogFragment::OrDash(entry.referrer),
            LogFragment::Plain(b"\" \""),
            LogFragment::OrDash(entry.user_agent),
            LogFragment::Plain(b"\" "),
            LogFragment::Number(entry.millis),
            LogFragment::Plain(b" "),
            LogFragment::Site(entry.site),
            LogFragment::Plain(b"\n"),
        ],
    )
}

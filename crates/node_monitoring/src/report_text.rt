//! The bytes of a response about a node.
ghost use Rattle.std.specs.Prelude.{◌≡◌, ◌<◌, ◌^◌, ◌++◌, IfOk, OnOk, length};
ghost use Rattle.std.specs.Fmt.{decimal};
ghost use Rattle.feed_http_heads.specs.Options.{SaysWhetherItKeeps};
ghost use Rattle.node_monitoring.specs.ReportTexts.{start_text, end_text, status_of, sent_body, report_text};
ghost use Rattle.node_monitoring.specs.ReportTexts.{IsReportMessage};

use std::alloc::{AllocError, Global};
use std::io::Write;

/// The content of a response about a node.
#[derive(Clone, Copy, Debug, PartialEq, Eq)]
pub enum ReportKind {
    /// 200, with the metrics.
    Metrics,
    /// 200: the node is well.
    Well,
    /// 503: the node has no active release, or lacks one that is wanted.
    Unready,
    /// 405: the method is not GET or HEAD.
    BadMethod,
}

/// A response about a node: its bytes, its status code, and the length of its body.
#[derive(Drop)]
pub struct ReportResponse {
    pub bytes: Vec<u8>,
    pub status: u16,
    /// 0 in the response to HEAD.
    pub body_len: usize,
}

// The heads up to the length of the body. No cache keeps a report (RFC 9111, section 5.2.2.5).
pub(crate) const METRICS_START: &[u8] =
    b"HTTP/1.1 200 OK\r\nContent-Type: text/plain; version=0.0.4; charset=utf-8\r\n\
    Cache-Control: no-store\r\nX-Content-Type-Options: nosniff\r\nContent-Length: ";

pub(crate) const WELL_START: &[u8] =
    b"HTTP/1.1 200 OK\r\nContent-Type: text/plain; charset=utf-8\r\n\
    Cache-Control: no-store\r\nX-Content-Type-Options: nosniff\r\nContent-Length: ";

pub(crate) const UNREADY_START: &[u8] =
    b"HTTP/1.1 503 Service Unavailable\r\nContent-Type: text/plain; charset=utf-8\r\n\
    Cache-Control: no-store\r\nX-Content-Type-Options: nosniff\r\nContent-Length: ";

pub(crate) const BAD_METHOD_START: &[u8] =
    b"HTTP/1.1 405 Method Not Allowed\r\nAllow: GET, HEAD\r\nContent-Type: text/plain; charset=utf-8\r\n\
    Cache-Control: no-store\r\nX-Content-Type-Options: nosniff\r\nContent-Length: ";

pub(crate) const KEPT_END: &[u8] = b"\r\n\r\n";

pub(crate) const CLOSED_END: &[u8] = b"\r\nConnection: close\r\n\r\n";

fn start_text(kind: ReportKind) -> &'static [u8]
    ensures { result.now ≡ start_text kind }
{
    match kind {
        ReportKind::Metrics => METRICS_START,
        ReportKind::Well => WELL_START,
        ReportKind::Unready => UNREADY_START,
        ReportKind::BadMethod => BAD_METHOD_START,
    }
}

fn end_text(keeps: bool) -> &'static [u8]
    ensures { result.now ≡ end_text keeps }
{
    if keeps { KEPT_END } else { CLOSED_END }
}

fn status_of(kind: ReportKind) -> u16
    ensures { result ≡ status_of kind }
{
    match kind {
        ReportKind::Metrics => 200,
        ReportKind::Well => 200,
        ReportKind::Unready => 503,
        ReportKind::BadMethod => 405,
    }
}

fn sent_body(head_alone: bool, body: &[u8]) -> &[u8]
    ensures { result.now ≡ sent_body head_alone body.now }
{
    if head_alone { b"" } else { body }
}

fn put_number(out: &mut Vec<u8>, number: usize) -> Result<(), AllocError>
    ensures { OnOk result (out.new.items ≡ out.old.items ++ decimal number) }
{
    match write!(out, "{number}") {
        Ok(()) => Ok(()),
        Err(_) => Err(AllocError),
    }
}

fn put(out: &mut Vec<u8>, text: &[u8]) -> Result<(), AllocError>
    ensures { OnOk result (out.new.items ≡ out.old.items ++ text.now) }
{
    Ok(out.extend_from_slice(text)?)
}

fn report_bytes(
    alloc: Global,
    kind: ReportKind,
    keeps: bool,
    head_alone: bool,
    body: &[u8],
) -> Result<Vec<u8>, AllocError>
    ensures text { IfOk result (λ bytes. bytes.items ≡ report_text kind keeps head_alone body.now) }
    ensures size { IfOk result (λ _. length body.now < 2 ^ 64) }
{
    let mut bytes = Vec::from_slice(alloc, start_text(kind))?;
    put_number(&mut bytes, body.len())?;
    put(&mut bytes, end_text(keeps))?;
    put(&mut bytes, sent_body(head_alone, body))?;
    Ok(bytes)
}

/// Returns a response with a body, which is left out if only the head was requested.
pub(crate) fn report_response(
    alloc: Global,
    kind: ReportKind,
    keeps: bool,
    head_alone: bool,
    body: &[u8],
) -> Result<ReportResponse, AllocError>
    ensures text { IfOk result (λ reply. reply.bytes.items ≡ report_text kind keeps head_alone body.now) }
    ensures status { IfOk result (λ reply. reply.status ≡ status_of kind) }
    ensures size { IfOk result (λ reply. reply.body_len ≡ length (sent_body head_alone body.now)) }
    ensures message { IfOk result (λ reply. IsReportMessage kind keeps head_alone body.now reply.bytes.items) }
    ensures says { IfOk result (λ reply. SaysWhetherItKeeps keeps reply.bytes.items) }
{
    Ok(ReportResponse {
        bytes: report_bytes(alloc, kind, keeps, head_alone, body)?,
        status: status_of(kind),
        body_len: sent_body(head_alone, body).len(),
    })
}

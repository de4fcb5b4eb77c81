//! Writes the requests that a node sends (RFC 9112, section 3).
ghost use Rattle.std.specs.Prelude.{◌≡◌, IsTrue, OnOk, IsOkUnless};
ghost use Rattle.std.specs.List.{list_all};
ghost use Rattle.std.specs.Io.KnownBytes.{Appends};
ghost use Rattle.feed_names.specs.ReleaseName.{text_of};
ghost use Rattle.feed_http.specs.RequestTexts.{is_host, is_host_byte, start_text, get_text, head_request_text};

use crate::limits::HOST_LIMIT;
use arrayvec::ArrayVec;
use feed_http_heads::HttpFault;
use feed_names::ReleaseName;
use feed_range::write_ask;
use std::io;
use std::io::Write;

// With the longest name, the longest host and the greatest places a request has 498 bytes.
const LONGEST_REQUEST: usize = 512;

fn is_host_byte(byte: u8) -> bool
    ensures { result ≡ is_host_byte byte }
{
    byte.is_ascii_alphanumeric()
        || byte == b'.'
        || byte == b'-'
        || byte == b':'
        || byte == b'['
        || byte == b']'
}

fn has_host_bytes_alone(host: &[u8]) -> bool
    ensures { result ≡ list_all is_host_byte host.now }
{
    host.iter().all(|byte| is_host_byte(*byte))
}

/// Returns whether the bytes are a valid Host field of a request: 1 to 255 ASCII letters, digits, `.`, `-`, `:`, `[`
/// and `]`.
pub fn is_host(host: &[u8]) -> bool
    ensures { result ≡ is_host host.now }
{
    !host.is_empty() && host.len() <= HOST_LIMIT && has_host_bytes_alone(host)
}

fn format_start<W: Write>(
    out: &mut W,
    method: &[u8],
    host: &[u8],
    name: &ReleaseName,
) -> io::Result<()>
    ensures { OnOk result (Appends (W.contents out.old) (W.contents out.new)
        (start_text method.now host.now (text_of name.now))) }
{
    out.write_all(method)?;
    out.write_all(b" /")?;
    out.write_all(name.text())?;
    out.write_all(b" HTTP/1.1\r\nHost: ")?;
    out.write_all(host)?;
    out.write_all(b"\r\n")
}

fn format_get<W: Write>(
    out: &mut W,
    host: &[u8],
    name: &ReleaseName,
    first: u64,
    last: u64,
) -> Result<(), HttpFault>
    ensures text { OnOk result (Appends (W.contents out.old) (W.contents out.new)
        (get_text host.now (text_of name.now) first last)) }
    ensures faults { IsOkUnless result HttpFault.Write }
{
    let Ok(()) = format_start(out, b"GET", host, name) else {
        return Err(HttpFault::Write);
    };
    let Ok(()) = out.write_all(b"Range: ") else {
        return Err(HttpFault::Write);
    };
    let Ok(()) = write_ask(out, first, last) else {
        return Err(HttpFault::Write);
    };
    let Ok(()) = out.write_all(b"\r\nAccept-Encoding: identity\r\nConnection: close\r\n\r\n") else {
        return Err(HttpFault::Write);
    };
    Ok(())
}

fn format_head_request<W: Write>(
    out: &mut W,
    host: &[u8],
    name: &ReleaseName,
) -> Result<(), HttpFault>
    ensures text { OnOk result (Appends (W.contents out.old) (W.contents out.new)
        (head_request_text host.now (text_of name.now))) }
    ensures faults { IsOkUnless result HttpFault.Write }
{
    let Ok(()) = format_start(out, b"HEAD", host, name) else {
        return Err(HttpFault::Write);
    };
    let Ok(()) = out.write_all(b"Accept-Encoding: identity\r\nConnection: close\r\n\r\n") else {
        return Err(HttpFault::Write);
    };
    Ok(())
}

/// Writes a GET for the range from the first to the last place of the file of this name, both included. Writes it at
/// once, and does not allocate.
///
/// # Errors
///
/// `Write` if the writer does not accept all of it. It is unspecified how much was then written.
pub fn write_request<W: Write>(
    writer: &mut W,
    host: &[u8],
    name: &ReleaseName,
    first: u64,
    last: u64,
) -> Result<(), HttpFault>
    requires { IsTrue (is_host host.now) }
    ensures text { OnOk result (Appends (W.contents writer.old) (W.contents writer.new)
        (get_text host.now (text_of name.now) first last)) }
    ensures faults { IsOkUnless result HttpFault.Write }
{
    let mut text = ArrayVec::<u8, LONGEST_REQUEST>::new();
    format_get(&mut text, host, name, first, last)?;
    let Ok(()) = writer.write_all(text.as_slice()) else {
        return Err(HttpFault::Write);
    };
    Ok(())
}

/// Writes a HEAD for the file of this name, at once and without allocating.
///
/// # Errors
///
/// `Write` if the writer does not accept all of it. It is unspecified how much was then written.
pub fn write_head_request<W: Write>(
    writer: &mut W,
    host: &[u8],
    name: &ReleaseName,
) -> Result<(), HttpFault>
    requires { IsTrue (is_host host.now) }
    ensures text { OnOk result (Appends (W.contents writer.old) (W.contents writer.new)
        (head_request_text host.now (text_of name.now))) }
    ensures faults { IsOkUnless result HttpFault.Write }
{
    let mut text = ArrayVec::<u8, LONGEST_REQUEST>::new();
    format_head_request(&mut text, host, name)?;
    let Ok(()) = writer.write_all(text.as_slice()) else {
        return Err(HttpFault::Write);
    };
    Ok(())
}

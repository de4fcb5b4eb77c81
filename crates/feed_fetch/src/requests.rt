//! Sends one request on a connection of its own, and reads the response.
ghost use Rattle.std.specs.Prelude.{◌≡◌, Some, Err, IfOk, IsTrue};
ghost use Rattle.feed_names.specs.ReleaseName.{text_of};
ghost use Rattle.feed_http.specs.RequestTexts.{is_host, get_text, head_request_text};
ghost use Rattle.feed_dial.specs.Responses.{IfKnown};
ghost use Rattle.feed_fetch.specs.Servers.{IsReadOf};
ghost use Rattle.feed_fetch.specs.Steps.{request_text};

use crate::machine::FetchRequest;
use crate::stop::RequestFault;
use feed_dial::{Dial, DialFault};
use feed_http::{Got, Method, read_reply, write_head_request, write_request};
use feed_http_heads::HttpFault;
use feed_names::ReleaseName;
use std::alloc::{AllocError, Global};

/// Returns the bytes of a request for a release to a server with this host.
///
/// # Errors
///
/// Running out of memory.
pub fn request_text(
    alloc: Global,
    host: &[u8],
    name: &ReleaseName,
    request: FetchRequest,
) -> Result<Vec<u8>, AllocError>
    requires { IsTrue (is_host host.now) }
    ensures { IfOk result (λ text. text.items ≡ request_text host.now (text_of name.now) request) }
{
    let mut text = Vec::new(alloc);
    let written = match request {
        FetchRequest::Length => write_head_request(&mut text, host, name),
        FetchRequest::Range { first, last } => write_request(&mut text, host, name, first, last),
    };
    match written {
        Ok(()) => Ok(text),
        Err(_) => Err(AllocError),
    }
}

/// Requests the length of the file.
pub fn request_size<D: Dial>(
    alloc: Global,
    dial: &mut D,
    host: &[u8],
    name: &ReleaseName,
) -> Result<Got, RequestFault>
    requires { IsTrue (is_host host.now) }
    ensures reply { IfKnown D.responses (λ IsResponseTo.
        IsReadOf IsResponseTo Method.Head (head_request_text host.now (text_of name.now)) result) }
    ensures refused { (fault : DialFault) → result ≡ Err (RequestFault.Dial fault)
        → D.last_fault dial.new ≡ Some fault }
{
    let mut conn = match dial.dial() {
        Ok(conn) => conn,
        Err(fault) => return Err(RequestFault::Dial(fault)),
    };
    let Ok(()) = write_head_request(&mut conn, host, name) else {
        return Err(RequestFault::Http(HttpFault::Write));
    };
    match read_reply(alloc, &mut conn, Method::Head) {
        Ok(got) => Ok(got),
        Err(fault) => Err(RequestFault::Http(fault)),
    }
}

/// Requests the range from the first to the last place of the file, both included.
pub fn request_range<D: Dial>(
    alloc: Global,
    dial: &mut D,
    host: &[u8],
    name: &ReleaseName,
    first: u64,
    last: u64,
) -> Result<Got, RequestFault>
    requires { IsTrue (is_host host.now) }
    ensures reply { IfKnown D.responses (λ IsResponseTo.
        IsReadOf IsResponseTo Method.Get (get_text host.now (text_of name.now) first last) result) }
    ensures refused { (fault : DialFault) → result ≡ Err (RequestFault.Dial fault)
        → D.last_fault dial.new ≡ Some fault }
{
    let mut conn = match dial.dial() {
        Ok(conn) => conn,
        Err(fault) => return Err(RequestFault::Dial(fault)),
    };
    let Ok(()) = write_request(&mut conn, host, name, first, last) else {
        return Err(RequestFault::Http(HttpFault::Write));
    };
    match read_reply(alloc, &mut conn, Method::Get) {
        Ok(got) => Ok(got),
        Err(fault) => Err(RequestFault::Http(fault)),
    }
}

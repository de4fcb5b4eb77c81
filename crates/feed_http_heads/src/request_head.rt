//! Reading the head of a request (RFC 9112, section 3).
ghost use Rattle.std.specs.Prelude.{◌≤◌, length, take, IfOk, IfErr, IfSome, ◌<◌, OnErr};
ghost use Rattle.std.specs.Io.KnownBytes.{Consumes, Keeps};
ghost use Rattle.httparse.specs.Spans.{IsRequestWithin, IsRequestOf};
ghost use Rattle.feed_http_heads.specs.RequestHeads.{IsHeadFault, IsWhyNoRequest};
ghost use Rattle.feed_http_heads.specs.Reads.{IsCountOf, IsEndFault};

use crate::http_fault::HttpFault;
use httparse::Status;
use httparse::spans::{HeaderSpan, RequestSpans, parse_request};
use std::io;
use std::io::Read;

/// A request's head in a buffer.
#[derive(Clone, Copy)]
pub struct RequestRead {
    pub spans: RequestSpans,
    /// The number of bytes read into the buffer: the head, and the bytes that arrived with it.
    pub filled: usize,
}

/// Reads into the buffer until a head is complete, however the reader splits its bytes.
pub fn read_request<R: Read>(
    reader: &mut R,
    buffer: &mut [u8],
    headers: &mut [HeaderSpan],
) -> Result<RequestRead, HttpFault>
    ensures filled { IfOk result (λ read. read.filled ≤ length buffer.new) }
    ensures within { IfOk result (λ read.
        IsRequestWithin (take read.filled buffer.new) headers.new read.spans) }
    ensures head { IfOk result (λ read.
        IsRequestOf (take read.filled buffer.new) headers.new read.spans) }
    ensures taken { IfOk result (λ read.
        Consumes (R.remaining reader.old) (R.remaining reader.new) (take read.filled buffer.new)) }
    ensures faults { IfErr result IsHeadFault }
    ensures why { IfErr result (λ fault. IfSome (R.remaining reader.old)
        (IsWhyNoRequest (length buffer.old) (length headers.old) fault)) }
{
    let mut filled = 0usize;
    while filled < buffer.len() {
        filled += read_some(reader, &mut buffer[filled..])?;
        match parse_request(&buffer[..filled], headers) {
            Ok(Status::Complete(spans)) => return Ok(RequestRead { spans, filled }),
            Ok(Status::Partial) => {}
            Err(_) => return Err(HttpFault::BadHead),
        }
    }
    Err(HttpFault::HeadTooLong)
}

/// Reads some bytes into the space, and returns how many.
///
/// # Errors
///
/// `Short` if the reader has ended, and `Read` if it fails.
pub fn read_some<R: Read>(reader: &mut R, space: &mut [u8]) -> Result<usize, HttpFault>
    requires { 0 < length space.old }
    ensures some { IfOk result (λ count. (0 < count) × (count ≤ length space.new)) }
    ensures taken { IfOk result (λ count.
        Consumes (R.remaining reader.old) (R.remaining reader.new) (take count space.new)) }
    ensures faults { IfErr result (IsEndFault (R.remaining reader.old)) }
{
    count_of(reader.read(space))
}

// A read of no bytes is the end, and a read that fails is not.
fn count_of(read: io::Result<usize>) -> Result<usize, HttpFault>
    ensures { IsCountOf read result }
{
    match read {
        Ok(0) => Err(HttpFault::Short),
        Ok(count) => Ok(count),
        Err(_) => Err(HttpFault::Read),
    }
}

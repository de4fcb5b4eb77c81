//! Finding the end of a request's head in the bytes received so far.
ghost use Rattle.std.specs.Prelude.{length};
ghost use Rattle.feed_http_heads.specs.Limits.{head_limit, field_limit};
ghost use Rattle.feed_http_heads.specs.HeadEnds.{IsHeadEnd, IsHeadFound};

use crate::limits::{FIELD_LIMIT, HEAD_LIMIT};
use httparse::Status;
use httparse::spans::{EMPTY_HEADER_SPAN, HeaderSpan, RequestSpans, parse_request};

/// The result of `head_end`: whether bytes begin with the head of a request.
#[derive(Clone, Copy, Debug, PartialEq, Eq)]
pub enum HeadEnd {
    /// They begin with a head of this many bytes.
    Whole(usize),
    /// They do not yet begin with a complete head.
    Unfinished,
    /// Whatever follows, they do not begin with a head within the limits.
    Never,
}

/// The result of `find_head`: whether bytes begin with the head of a request, and the places of its parts.
#[derive(Clone, Copy, Debug)]
pub enum HeadFound {
    Whole(RequestSpans),
    Unfinished,
    Never,
}

/// Finds the head of a request at the front of the bytes. Looks at no more than 8,192 bytes. The head may have as many
/// fields as there are headers.
pub fn find_head(bytes: &[u8], headers: &mut [HeaderSpan]) -> HeadFound
    ensures { IsHeadFound head_limit (length headers.old) bytes.now headers.new result }
{
    let front = &bytes[..bytes.len().min(HEAD_LIMIT)];
    match parse_request(front, headers) {
        Ok(Status::Complete(spans)) => HeadFound::Whole(spans),
        Ok(Status::Partial) => {
            if bytes.len() < HEAD_LIMIT {
                HeadFound::Unfinished
            } else {
                HeadFound::Never
            }
        }
        Err(_) => HeadFound::Never,
    }
}

/// Returns where the head at the front of the bytes ends, with at most 8,192 bytes and 64 fields (RFC 9112, section 3),
/// or whether more bytes could still complete one.
pub fn head_end(bytes: &[u8]) -> HeadEnd
    ensures { IsHeadEnd head_limit field_limit bytes.now result }
{
    let mut headers = [EMPTY_HEADER_SPAN; FIELD_LIMIT];
    match find_head(bytes, &mut headers) {
        HeadFound::Whole(spans) => HeadEnd::Whole(spans.len),
        HeadFound::Unfinished => HeadEnd::Unfinished,
        HeadFound::Never => HeadEnd::Never,
    }
}

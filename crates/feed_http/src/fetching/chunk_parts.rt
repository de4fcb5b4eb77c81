//! The parts of a chunked body at the front of some bytes (RFC 9112, section 7.1).
ghost use Rattle.feed_http.specs.ArrivingChunks.{IsLineFound, IsEndFound, AreTrailersFound};

use crate::limits::CHUNK_LINE_LIMIT;
use feed_http_heads::{FIELD_LIMIT, HEAD_LIMIT};
use httparse::spans::{EMPTY_HEADER_SPAN, parse_headers};
use httparse::{Status, parse_chunk_size};

/// The line of a chunk.
#[derive(Clone, Copy)]
pub(crate) enum Line {
    /// It has this many bytes, and states this size.
    Complete { count: usize, size: u64 },
    /// More of it has to arrive.
    Unfinished,
    /// It is invalid.
    Invalid,
}

/// The CR LF behind the bytes of a chunk.
#[derive(Clone, Copy)]
pub(crate) enum DataEnd {
    Complete,
    /// More of it has to arrive.
    Unfinished,
    /// Something else follows the bytes.
    Invalid,
}

/// The trailer section.
#[derive(Clone, Copy)]
pub(crate) enum Trailers {
    /// It has this many bytes.
    Complete(usize),
    /// More of it has to arrive.
    Unfinished,
    /// It is invalid.
    Invalid,
}

/// Parses the line of a chunk at the front of the bytes.
pub(crate) fn parse_line(rest: &[u8]) -> Line
    ensures { IsLineFound rest.now result }
{
    let line = &rest[..rest.len().min(CHUNK_LINE_LIMIT)];
    match parse_chunk_size(line) {
        Ok(Status::Complete((count, size))) => Line::Complete { count, size },
        Ok(Status::Partial) => {
            if line.len() < CHUNK_LINE_LIMIT {
                Line::Unfinished
            } else {
                Line::Invalid
            }
        }
        Err(_) => Line::Invalid,
    }
}

/// Finds CR LF at the front of the bytes. A byte that cannot begin it is invalid at once.
pub(crate) fn find_end(rest: &[u8]) -> DataEnd
    ensures { IsEndFound rest.now result }
{
    if rest.starts_with(b"\r\n") {
        DataEnd::Complete
    } else if b"\r\n".starts_with(rest) {
        DataEnd::Unfinished
    } else {
        DataEnd::Invalid
    }
}

/// Parses the trailer section at the front of the bytes.
pub(crate) fn parse_trailers(rest: &[u8]) -> Trailers
    ensures { AreTrailersFound rest.now result }
{
    let mut headers = [EMPTY_HEADER_SPAN; FIELD_LIMIT];
    let section = &rest[..rest.len().min(HEAD_LIMIT)];
    match parse_headers(section, &mut headers) {
        Ok(Status::Complete((count, _))) => Trailers::Complete(count),
        Ok(Status::Partial) => {
            if section.len() < HEAD_LIMIT {
                Trailers::Unfinished
            } else {
                Trailers::Invalid
            }
        }
        Err(_) => Trailers::Invalid,
    }
}

//! The length that Content-Length fields state (RFC 9110, section 8.6).
ghost use Rattle.std.specs.Prelude.{◌≡◌, List, length};
ghost use Rattle.std.specs.List.{list_all};
ghost use Rattle.httparse.specs.Grammar.{Field};
ghost use Rattle.httparse.specs.Spans.{IsHeaderWithin};
ghost use Rattle.feed_http_heads.specs.Fields.{values_named, has_other_name_or, AreWithin, AreFieldsOf};
ghost use Rattle.feed_http.specs.Announcements.{is_length_value, common_length, content_length};

use feed_bytes::read_number;
use feed_http_heads::{Fields, is_named};
use httparse::spans::HeaderSpan;

fn has_other_name_or_length(buffer: &[u8], header: HeaderSpan, size: u64) -> bool
    requires { IsHeaderWithin (length buffer.now) header }
    ensures { result ≡ has_other_name_or (is_length_value size) buffer.now content_length header }
{
    !is_named(buffer, header, b"content-length")
        || read_number(header.value.of(buffer)) == Some(size)
}

fn all_lengths_are(found: &Fields<'_>, size: u64) -> bool
    requires { AreWithin found.now }
    ensures { (fields : List Field) → AreFieldsOf found.now fields
        → result ≡ list_all (is_length_value size) (values_named content_length fields) }
{
    for header in found.headers {
        if !has_other_name_or_length(found.buffer, *header, size) {
            return false;
        }
    }
    true
}

/// Returns the length that the Content-Length fields state, if there is one and all state the same.
pub(crate) fn common_length(found: &Fields<'_>) -> Option<u64>
    requires { AreWithin found.now }
    ensures { (fields : List Field) → AreFieldsOf found.now fields
        → result ≡ common_length (values_named content_length fields) }
{
    let first = found.first_span(b"content-length")?;
    let size = read_number(first.of(found.buffer))?;
    all_lengths_are(found, size).then_some(size)
}

//! The type that a response states of a file.
ghost use Rattle.std.specs.Prelude.{◌≡◌, ◌↔◌, List, take, IsTrue};
ghost use Rattle.std.specs.List.{position};
ghost use Rattle.httparse.specs.Grammar.{Field, ResponseHead};
ghost use Rattle.httparse.specs.Spans.{IsResponseAt, IsResponseWithin};
ghost use Rattle.feed_http_heads.specs.Fields.{AreWithin, AreFieldsOf};
ghost use Rattle.node_file_checks.specs.FileTypes.{ends_media, has_other_type, is_other_media, media_of};
ghost use Rattle.node_file_checks.specs.FileTypes.{has_other_name, has_other_part, last_of};
ghost use Rattle.node_file_checks.specs.FileTypes.{HasOtherType, has_file, is_of_other_file};

use feed_http_heads::{FIELD_LIMIT, Fields, HEAD_LIMIT, is_interim};
use httparse::Status;
use httparse::spans::{EMPTY_HEADER_SPAN, HeaderSpan, ResponseSpans, parse_response};

fn ends_media(byte: u8) -> bool
    ensures { result ≡ ends_media byte }
{
    byte == b';' || byte == b' ' || byte == b'\t'
}

fn media_end(value: &[u8]) -> Option<usize>
    ensures { result ≡ position ends_media value.now }
{
    value.iter().position(|byte| ends_media(*byte))
}

fn media_of(value: &[u8]) -> &[u8]
    ensures { result.now ≡ media_of value.now }
{
    match media_end(value) {
        Some(end) => &value[..end],
        None => value,
    }
}

#[tactic(auto, using(std::proofs::lemmas::List::take_min))]
fn front_of(count: usize, text: &[u8]) -> &[u8]
    ensures { result.now ≡ take count text.now }
{
    &text[..count.min(text.len())]
}

fn last_of(count: usize, text: &[u8]) -> &[u8]
    ensures { result.now ≡ last_of count text.now }
{
    &text[text.len().saturating_sub(count)..]
}

fn has_other_name(media: &[u8]) -> bool
    ensures { result ≡ has_other_name media.now }
{
    media.eq_ignore_ascii_case(b"text/html")
        || media.eq_ignore_ascii_case(b"text/xml")
        || media.eq_ignore_ascii_case(b"application/xml")
        || media.eq_ignore_ascii_case(b"application/json")
        || media.eq_ignore_ascii_case(b"application/pdf")
}

fn has_other_part(media: &[u8]) -> bool
    ensures { result ≡ has_other_part media.now }
{
    front_of(6, media).eq_ignore_ascii_case(b"image/")
        || last_of(4, media).eq_ignore_ascii_case(b"+xml")
        || last_of(5, media).eq_ignore_ascii_case(b"+json")
}

fn is_other_media(media: &[u8]) -> bool
    ensures { result ≡ is_other_media media.now }
{
    has_other_name(media) || has_other_part(media)
}

fn states_other_type(fields: &Fields<'_>) -> bool
    requires { AreWithin fields.now }
    ensures { (list : List Field) → AreFieldsOf fields.now list → result ≡ has_other_type list }
{
    match fields.sole_value(b"content-type") {
        Some(value) => is_other_media(media_of(value)),
        None => false,
    }
}

fn has_file(code: u16) -> bool
    ensures { result ≡ has_file code }
{
    code == 200 || code == 206
}

fn fields_of<'b>(text: &'b [u8], headers: &'b [HeaderSpan], spans: ResponseSpans) -> Fields<'b>
    requires { IsResponseWithin text.now headers.now spans }
    ensures within { AreWithin result }
    ensures fields { (head : ResponseHead) → IsResponseAt text.now headers.now spans head
        → AreFieldsOf result head.fields }
{
    Fields {
        buffer: text,
        headers: &headers[..spans.headers],
    }
}

// Returns whether the head that the spans cover is that of a file of another type.
fn is_of_other_file(text: &[u8], headers: &[HeaderSpan], spans: ResponseSpans) -> bool
    requires { IsResponseWithin text.now headers.now spans }
    ensures { (head : ResponseHead) → IsResponseAt text.now headers.now spans head
        → result ≡ is_of_other_file head }
{
    has_file(spans.code) && states_other_type(&fields_of(text, headers, spans))
}

/// Returns whether the bytes begin with the head of a response that has a file, and states a type that no list has:
/// HTML, XML, JSON, PDF or an image. Skips interim heads.
pub fn has_other_type(reply: &[u8]) -> bool
    ensures { IsTrue result ↔ HasOtherType reply.now }
{
    let mut headers = [EMPTY_HEADER_SPAN; FIELD_LIMIT];
    let mut text = front_of(HEAD_LIMIT, reply);
    loop {
        match parse_response(text, &mut headers) {
            Ok(Status::Complete(spans)) => {
                if !is_interim(spans.code) {
                    return is_of_other_file(text, &headers, spans);
                }
                text = &text[spans.len..];
            }
            Ok(Status::Partial) => return false,
            Err(_) => return false,
        }
    }
}

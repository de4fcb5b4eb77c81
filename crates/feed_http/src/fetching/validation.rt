//! Validating the head of a response (RFC 9110, sections 8.4, 8.6, 14.4 and 15; RFC 9112, section 6).
ghost use Rattle.std.specs.Prelude.{◌≡◌, IfSome};
ghost use Rattle.feed_range.specs.Content.{IsInOrder};
ghost use Rattle.httparse.specs.Grammar.{ResponseHead};
ghost use Rattle.feed_http_heads.specs.Fields.{AreWithin, AreFieldsOf};
ghost use Rattle.feed_http.specs.Announcements.{is_identity, is_chunked, is_transfer_coded, is_coded_otherwise};
ghost use Rattle.feed_http.specs.Announcements.{stated_length, framing_of, framing_by_length, range_of};
ghost use Rattle.feed_http.specs.Announcements.{part_announcement};
ghost use Rattle.feed_http.specs.Announcements.{part_with_framing, whole_announcement, size_announcement};
ghost use Rattle.feed_http.specs.Announcements.{unsatisfied_by_head, file_announcement};
ghost use Rattle.feed_http.specs.Announcements.{announcement_of, has_file_status, IsInBuffer, HasHead};

use crate::fetching::got::Method;
use crate::fetching::length::common_length;
use feed_http_heads::{Fields, HttpFault};
use feed_limits::{FILE_LIMIT, PIECE_LIMIT};
use feed_range::ContentRange;
use httparse::spans::{HeaderSpan, ResponseSpans};

/// The framing of a body: how its end is found.
#[derive(Clone, Copy, Debug, PartialEq, Eq)]
pub enum Framing {
    Chunked,
    /// After this many bytes.
    Sized(u64),
    /// With the stream.
    ToEnd,
}

/// The result of validating a response's head: an answer, or which body follows.
#[derive(Clone, Copy)]
pub(crate) enum Announcement {
    Missing,
    Unsatisfied {
        total: Option<u64>,
    },
    Size(u64),
    Part {
        first: u64,
        total: Option<u64>,
        count: u64,
        framing: Framing,
    },
    Whole(Framing),
}

/// A response's head, in the buffer into which it was read.
#[derive(Clone, Copy)]
pub(crate) struct BufferedHead<'b> {
    pub buffer: &'b [u8],
    pub headers: &'b [HeaderSpan],
    pub spans: ResponseSpans,
}

impl BufferedHead<'_> {
    fn fields(&self) -> Fields<'_>
        requires { IsInBuffer self.now }
        ensures within { AreWithin result }
        ensures fields { (head : ResponseHead) → HasHead self.now head → AreFieldsOf result head.fields }
    {
        Fields {
            buffer: self.buffer,
            headers: &self.headers[..self.spans.headers],
        }
    }

    fn is_identity(&self) -> bool
        requires { IsInBuffer self.now }
        ensures { (head : ResponseHead) → HasHead self.now head → result ≡ is_identity head }
    {
        self.fields()
            .all_values_are(b"content-encoding", b"identity")
    }

    fn is_transfer_coded(&self) -> bool
        requires { IsInBuffer self.now }
        ensures { (head : ResponseHead) → HasHead self.now head → result ≡ is_transfer_coded head }
    {
        self.fields().has_field(b"transfer-encoding")
    }

    fn is_chunked(&self) -> bool
        requires { IsInBuffer self.now }
        ensures { (head : ResponseHead) → HasHead self.now head → result ≡ is_chunked head }
    {
        match self.fields().sole_value(b"transfer-encoding") {
            Some(value) => self.spans.version == 1 && value.eq_ignore_ascii_case(b"chunked"),
            None => false,
        }
    }

    fn is_coded_otherwise(&self, method: Method) -> bool
        requires { IsInBuffer self.now }
        ensures { (head : ResponseHead) → HasHead self.now head
            → result ≡ is_coded_otherwise method head }
    {
        !self.is_identity()
            || (method == Method::Get && self.is_transfer_coded() && !self.is_chunked())
    }

    fn stated_length(&self) -> Result<Option<u64>, HttpFault>
        requires { IsInBuffer self.now }
        ensures { (head : ResponseHead) → HasHead self.now head → result ≡ stated_length head }
    {
        if !self.fields().has_field(b"content-length") {
            return Ok(None);
        }
        match common_length(&self.fields()) {
            Some(length) => Ok(Some(length)),
            None => Err(HttpFault::Length),
        }
    }

    fn framing(&self) -> Result<Framing, HttpFault>
        requires { IsInBuffer self.now }
        ensures { (head : ResponseHead) → HasHead self.now head → result ≡ framing_of head }
    {
        if self.is_transfer_coded() {
            return Ok(Framing::Chunked);
        }
        framing_by_length(self.stated_length())
    }

    fn range(&self) -> Option<ContentRange>
        requires { IsInBuffer self.now }
        ensures in_order { IfSome result IsInOrder }
        ensures value { (head : ResponseHead) → HasHead self.now head → result ≡ range_of head }
    {
        match self.fields().sole_value(b"content-range") {
            Some(value) => ContentRange::read(value).ok(),
            None => None,
        }
    }

    fn has_file_status(&self, method: Method) -> bool
        requires { IsInBuffer self.now }
        ensures { (head : ResponseHead) → HasHead self.now head → result ≡ has_file_status method head }
    {
        self.spans.code == 200 || (self.spans.code == 206 && method == Method::Get)
    }

    fn validate_unsatisfied(&self) -> Result<Announcement, HttpFault>
        requires { IsInBuffer self.now }
        ensures value { (head : ResponseHead) → HasHead self.now head
            → result ≡ unsatisfied_by_head head }
    {
        if !self.fields().has_field(b"content-range") {
            return Ok(Announcement::Unsatisfied { total: None });
        }
        match self.range() {
            Some(ContentRange::Unsatisfied { total }) => {
                Ok(Announcement::Unsatisfied { total: Some(total) })
            }
            _ => Err(HttpFault::Range),
        }
    }

    fn validate_file(&self, method: Method) -> Result<Announcement, HttpFault>
        requires { IsInBuffer self.now }
        ensures value { (head : ResponseHead) → HasHead self.now head
            → result ≡ file_announcement method head }
    {
        if self.is_coded_otherwise(method) {
            return Err(HttpFault::Coding);
        }
        if method == Method::Head {
            return validate_size(self.stated_length());
        }
        if self.spans.code == 206 {
            return validate_part(self.range(), self.framing());
        }
        validate_whole(self.framing())
    }

    /// Validates the head of a response to a request with this method. Returns the result, or the first fault.
    pub(crate) fn validate(&self, method: Method) -> Result<Announcement, HttpFault>
        requires { IsInBuffer self.now }
        ensures value { (head : ResponseHead) → HasHead self.now head
            → result ≡ announcement_of method head }
    {
        if self.spans.code == 404 {
            return Ok(Announcement::Missing);
        }
        if self.spans.code == 416 && method == Method::Get {
            return self.validate_unsatisfied();
        }
        if !self.has_file_status(method) {
            return Err(HttpFault::Status(self.spans.code));
        }
        self.validate_file(method)
    }
}

fn framing_by_length(length: Result<Option<u64>, HttpFault>) -> Result<Framing, HttpFault>
    ensures { result ≡ framing_by_length length }
{
    match length {
        Ok(Some(length)) => Ok(Framing::Sized(length)),
        Ok(None) => Ok(Framing::ToEnd),
        Err(fault) => Err(fault),
    }
}

fn validate_size(length: Result<Option<u64>, HttpFault>) -> Result<Announcement, HttpFault>
    ensures value { result ≡ size_announcement length }
{
    match length {
        Ok(Some(length)) => Ok(Announcement::Size(length)),
        Ok(None) => Err(HttpFault::Length),
        Err(fault) => Err(fault),
    }
}

fn validate_part(
    range: Option<ContentRange>,
    framing: Result<Framing, HttpFault>,
) -> Result<Announcement, HttpFault>
    requires { IfSome range IsInOrder }
    ensures value { result ≡ part_announcement range framing }
{
    let Some(ContentRange::Part { first, last, total }) = range else {
        return Err(HttpFault::Range);
    };
    if last - first >= PIECE_LIMIT as u64 {
        return Err(HttpFault::BodyTooLong);
    }
    frame_part(first, total, last - first + 1, framing)
}

fn frame_part(
    first: u64,
    total: Option<u64>,
    count: u64,
    framing: Result<Framing, HttpFault>,
) -> Result<Announcement, HttpFault>
    ensures value { result ≡ part_with_framing first total count framing }
{
    let framing = framing?;
    match framing {
        Framing::Sized(length) if length != count => Err(HttpFault::Length),
        _ => Ok(Announcement::Part {
            first,
            total,
            count,
            framing,
        }),
    }
}

fn validate_whole(framing: Result<Framing, HttpFault>) -> Result<Announcement, HttpFault>
    ensures value { result ≡ whole_announcement framing }
{
    let framing = framing?;
    match framing {
        Framing::Sized(length) if length > FILE_LIMIT as u64 => Err(HttpFault::BodyTooLong),
        _ => Ok(Announcement::Whole(framing)),
    }
}

//! The Content-Range field of a response (RFC 9110, section 14.4).
ghost use Rattle.std.specs.Prelude.{◌≡◌, IsTrue, IfOk, OnOk, is_some};
ghost use Rattle.std.specs.Io.KnownBytes.{Appends};
ghost use Rattle.std.specs.Option.{option_and_then};
ghost use Rattle.feed_range.specs.declared.content.ContentRange.{ContentRange};
ghost use Rattle.feed_bytes.specs.Split.{number_of};
ghost use Rattle.feed_range.specs.Content.{is_star, total_of, total_in_64_bits, part_in_order, part_of, unsatisfied_of};
ghost use Rattle.feed_range.specs.Content.{range_of, content_range, content_range_text, range_in_order, FitsIn64Bits};
ghost use Rattle.feed_range.specs.Content.{IsInOrder};

use super::WriteFault;
use feed_bytes::{is_number, parse_number, split_once, strip_prefix};
use std::io::Write;
use thiserror::Error;

/// The range that a response has, both ends included, and the length of the whole in bytes.
#[derive(Clone, Copy, Debug, PartialEq, Eq)]
pub enum ContentRange {
    /// `first-last/total`, or `first-last/*` if the length is unknown.
    Part {
        first: u64,
        last: u64,
        total: Option<u64>,
    },
    /// `*/total`: the requested range is not in the file.
    Unsatisfied {
        total: u64,
    },
}

/// Why a Content-Range value is invalid.
#[derive(Clone, Copy, Debug, PartialEq, Eq, Error)]
pub enum RangeFault {
    /// It is not in one of the three forms, or its unit is not `bytes`.
    #[error("BadSyntax")]
    BadSyntax = 1,
    /// The last place is below the first, or the total is not above the last.
    #[error("Invalid")]
    Invalid = 2,
    /// A number does not fit in 64 bits.
    #[error("TooBig")]
    TooBig = 3,
}

impl ContentRange {
    /// Parses a Content-Range value: `bytes` in any case, one space, then `first-last/total`, `first-last/*` or
    /// `*/total`, in digits.
    ///
    /// # Errors
    ///
    /// If several apply, `BadSyntax` comes before `TooBig`, and `TooBig` before `Invalid`.
    pub fn read(text: &[u8]) -> Result<ContentRange, RangeFault>
        ensures value { result ≡ content_range text.now }
        ensures in_order { IfOk result IsInOrder }
    {
        let Some(range) = strip_prefix(text, b"bytes ") else {
            return Err(RangeFault::BadSyntax);
        };
        match split_once(range, b'/') {
            Some((places, total)) => range_of(places, total),
            None => Err(RangeFault::BadSyntax),
        }
    }
}

fn range_of(places: &[u8], total: &[u8]) -> Result<ContentRange, RangeFault>
    ensures value { result ≡ range_of places.now total.now }
    ensures in_order { IfOk result IsInOrder }
{
    if is_star(places) {
        return unsatisfied_of(total);
    }
    match split_once(places, b'-') {
        Some((first, last)) => part_of(first, last, total),
        None => Err(RangeFault::BadSyntax),
    }
}

fn unsatisfied_of(total: &[u8]) -> Result<ContentRange, RangeFault>
    ensures value { result ≡ unsatisfied_of (number_of total.now) }
    ensures in_order { IfOk result IsInOrder }
{
    if !is_number(total) {
        return Err(RangeFault::BadSyntax);
    }
    match parse_number(total) {
        Some(total) => Ok(ContentRange::Unsatisfied { total }),
        None => Err(RangeFault::TooBig),
    }
}

fn part_of(first: &[u8], last: &[u8], total: &[u8]) -> Result<ContentRange, RangeFault>
    ensures value { result ≡ part_of (number_of first.now) (number_of last.now) (total_of total.now) }
    ensures in_order { IfOk result IsInOrder }
{
    if !is_number(first) || !is_number(last) || !is_total(total) {
        return Err(RangeFault::BadSyntax);
    }
    match (parse_number(first), parse_number(last), parse_total(total)) {
        (Some(first), Some(last), Some(total)) => part_in_order(first, last, total),
        _ => Err(RangeFault::TooBig),
    }
}

fn is_star(text: &[u8]) -> bool
    ensures { result ≡ is_star text.now }
{
    text == b"*".as_slice()
}

fn is_total(text: &[u8]) -> bool
    ensures { result ≡ is_some (total_of text.now) }
{
    is_star(text) || is_number(text)
}

fn parse_total(text: &[u8]) -> Option<Option<u64>>
    requires { IsTrue (is_some (total_of text.now)) }
    ensures { result ≡ option_and_then total_in_64_bits (total_of text.now) }
{
    if is_star(text) {
        return Some(None);
    }
    parse_number(text).map(Some)
}

fn part_in_order(first: u64, last: u64, total: Option<u64>) -> Result<ContentRange, RangeFault>
    ensures value { result ≡ part_in_order first last total }
    ensures in_order { IfOk result IsInOrder }
{
    if last < first || total.is_some_and(|total| total <= last) {
        return Err(RangeFault::Invalid);
    }
    Ok(ContentRange::Part { first, last, total })
}

/// Writes a Content-Range value. Does not check the order of its numbers.
///
/// # Errors
///
/// `Write` if the writer does not accept all of it. It is unspecified how much was then written.
pub fn write_content_range<W: Write>(writer: &mut W, range: &ContentRange) -> Result<(), WriteFault>
    ensures { OnOk result
        (Appends (W.contents writer.old) (W.contents writer.new) (content_range_text range.now)) }
{
    match *range {
        ContentRange::Part {
            first,
            last,
            total: Some(total),
        } => write!(writer, "bytes {first}-{last}/{total}"),
        ContentRange::Part {
            first,
            last,
            total: None,
        } => write!(writer, "bytes {first}-{last}/*"),
        ContentRange::Unsatisfied { total } => write!(writer, "bytes */{total}"),
    }
    .map_err(|_| WriteFault::Write)
}

/// A law without code: a value that `write_content_range` writes parses as the same range, or as `Invalid` if last is
/// below first or the total is not above last.
pub fn content_range_reads_back()
    ensures { (range : ContentRange) → FitsIn64Bits range
        → content_range (content_range_text range) ≡ range_in_order range }
{}

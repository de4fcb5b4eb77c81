//! The Range field of a request (RFC 9110, sections 14.1.2 and 14.2).
ghost use Rattle.std.specs.Prelude.{◌≡◌, ◌≤◌, ◌<◌, ◌-◌, ◌^◌, ℕ, List, min, OnOk};
ghost use Rattle.std.specs.Io.KnownBytes.{Appends};
ghost use Rattle.feed_range.specs.declared.range_ask.RangeAsk.TheVariants.{Part};
ghost use Rattle.feed_range.specs.RangeAsk.{places_between, places_from, last_places, places_of, ask_of, ask_text};
ghost use Rattle.feed_range.specs.RangeAsk.{IsInside};
ghost use Rattle.feed_range.specs.RangeAsk.{AsksByForm};

use crate::WriteFault;
use feed_bytes::{read_capped, split_once, strip_prefix};
use std::io::Write;

/// The part of a file that a Range value asks for.
#[derive(Clone, Copy, Debug, PartialEq, Eq)]
pub enum RangeAsk {
    /// The whole file, as without a Range field.
    Whole,
    /// The range from the first to the last place, both included. Places count from 0.
    Part(u64, u64),
    /// A range without a byte of the file: status 416.
    Unsatisfied,
}

impl RangeAsk {
    /// Parses a Range value for a file of this length, in bytes.
    ///
    /// A value is `bytes=` in any case and one of `first-last`, `first-` and `-suffix`, in digits. Any other value,
    /// including lists of ranges and other units, asks for the whole file, because a server may ignore a Range field. A
    /// number past 64 bits counts as `u64::MAX`.
    pub fn read(value: &[u8], length: u64) -> RangeAsk
        ensures value { result ≡ ask_of value.now length }
        ensures inside { IsInside length result }
    {
        let Some(range) = strip_prefix(value, b"bytes=") else {
            return RangeAsk::Whole;
        };
        match split_once(range, b'-') {
            Some((before, after)) => places_of(before, after, length),
            None => RangeAsk::Whole,
        }
    }
}

fn places_of(before: &[u8], after: &[u8], length: u64) -> RangeAsk
    ensures value { result ≡ places_of before.now after.now length }
    ensures inside { IsInside length result }
{
    match (read_capped(before), read_capped(after)) {
        (Some(first), Some(last)) => places_between(first, last, length),
        (Some(first), None) if after.is_empty() => places_from(first, length),
        (None, Some(suffix)) if before.is_empty() => last_places(suffix, length),
        _ => RangeAsk::Whole,
    }
}

fn places_between(first: u64, last: u64, length: u64) -> RangeAsk
    ensures value { result ≡ places_between first last length }
    ensures inside { IsInside length result }
{
    if last < first {
        RangeAsk::Whole
    } else if length <= first {
        RangeAsk::Unsatisfied
    } else {
        RangeAsk::Part(first, last.min(length - 1))
    }
}

fn places_from(first: u64, length: u64) -> RangeAsk
    ensures value { result ≡ places_from first length }
    ensures inside { IsInside length result }
{
    if length <= first {
        RangeAsk::Unsatisfied
    } else {
        RangeAsk::Part(first, length - 1)
    }
}

fn last_places(suffix: u64, length: u64) -> RangeAsk
    ensures value { result ≡ last_places suffix length }
    ensures inside { IsInside length result }
{
    if suffix == 0 {
        RangeAsk::Unsatisfied
    } else if length == 0 {
        RangeAsk::Whole
    } else {
        RangeAsk::Part(length.saturating_sub(suffix), length - 1)
    }
}

/// Writes the Range value `bytes=first-last`.
///
/// # Errors
///
/// `Write` if the writer does not accept all of it. It is unspecified how much was then written.
pub fn write_ask<W: Write>(writer: &mut W, first: u64, last: u64) -> Result<(), WriteFault>
    ensures { OnOk result
        (Appends (W.contents writer.old) (W.contents writer.new) (ask_text first last)) }
{
    write!(writer, "bytes={first}-{last}").map_err(|_| WriteFault::Write)
}

/// A law without code: a value that `write_ask` writes asks for that range, as far as the file has it.
pub fn ask_reads_back()
    ensures { (first last size : ℕ) → first ≤ last → last < 2 ^ 64 → first < size
        → ask_of (ask_text first last) size ≡ Part first (min last (size - 1)) }
{}

/// A law without code: a value of one of the three forms asks for the range of its numbers, and any other value for
/// the whole file.
pub fn asks_by_form()
    ensures { (value : List ℕ) (size : ℕ) → AsksByForm value size }
{}

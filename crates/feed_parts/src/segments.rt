//! `Segments`, the stored bytes of a file: a finite map from places to bytes.
ghost use Rattle.std.specs.Prelude.{◌≡◌, ◌≤◌, ◌<◌, ◌+◌, ◌-◌, ◌^◌, ◌↔◌, ℕ, [], length};
ghost use Rattle.std.specs.Prelude.{false, None, IfOk, IfSome, IfNone, IsOk, IsTrue, OnErr, OnOk};
ghost use Rattle.feed_model.specs.Reply.{max_piece, missing_below};
ghost use Rattle.feed_model.specs.Content.{byte_in};
ghost use Rattle.feed_model.specs.Change.{merged};
ghost use Rattle.feed_model.specs.Parts.{AgreesIn, Adds, AreWithin, Covers, DiffersIn, HasNew};
ghost use Rattle.feed_parts.specs.Piece.{joined, total_length};
ghost use Rattle.feed_parts.specs.Segments.{AreFew, AreSegments, HasRun, IsFirstGap, IsLastFrom, IsTextOf};
ghost use Rattle.feed_parts.specs.Shown.{shown_parts};

use crate::merging::merge;
use crate::part::{Part, are_within, end_of};
use crate::reading::SegmentReader;
use crate::{overlap, segments};
use std::alloc::{AllocError, Global};
use std::marker::Model;

/// The stored bytes of a file and their number, as parts in the order of their places. No two parts overlap, and
/// parts that touch are not joined.
#[derive(Drop)]
pub struct Segments {
    parts: Vec<Part>,
    count: u64,
}

impl Model for Segments {
    ghost use Rattle.std.specs.Prelude.{◌≡◌, ◌-◌, vec_len, vec_capacity};
    ghost use Rattle.feed_parts.specs.Piece.{total_length};
    ghost use Rattle.feed_parts.specs.Segments.{AreSegments, SegmentsValue};
    ghost use Rattle.feed_parts.specs.Shown.{shown_parts};

    ghost Value = { SegmentsValue };

    ghost view = { λ s. record {
      parts = shown_parts s.parts.items;
      room = vec_capacity s.parts - vec_len s.parts;
    } };

    ghost invariant = { λ s. AreSegments (shown_parts s.parts.items)
        × (s.count ≡ total_length (shown_parts s.parts.items)) };
}

impl Segments {
    /// Returns segments without bytes. Does not allocate.
    pub fn new(alloc: Global) -> Segments
        ensures { result.parts ≡ [] }
    {
        Segments {
            parts: Vec::new(alloc),
            count: 0,
        }
    }

    /// Returns segments with exactly the given parts, or `None` unless the parts are in the order of their places, each
    /// of 1 to 1,048,576 bytes, and none begins before the previous one ends or extends past the greatest 64-bit
    /// number. Does not allocate.
    pub fn of(parts: Vec<Part>) -> Option<Segments>
        ensures some { IfSome result (λ segments. segments.parts ≡ shown_parts parts.items) }
        ensures none { IfNone result (¬ (AreSegments (shown_parts parts.items))) }
    {
        if !are_within(&parts, u64::MAX) {
            return None;
        }
        let count = overlap::byte_count(&parts);
        Some(Segments { parts, count })
    }

    /// Returns the parts, in the order of their places.
    pub fn parts(&self) -> &[Part]
        ensures value { shown_parts result.now ≡ self.now.parts }
        ensures order { AreSegments self.now.parts }
    {
        &self.parts
    }

    /// Returns the number of stored bytes, in constant time.
    pub fn count(&self) -> u64
        ensures { result ≡ total_length self.now.parts }
    {
        self.count
    }

    /// Returns the number of missing places of a file of this size, in constant time.
    pub fn missing(&self, size: u64) -> u64
        requires { AreWithin size self.now.parts }
        ensures { result ≡ missing_below (byte_in self.now.parts) size }
    {
        size.saturating_sub(self.count)
    }

    /// Returns whether no part extends past the size of a file.
    pub fn are_within(&self, size: u64) -> bool
        ensures { IsTrue result ↔ AreWithin size self.now.parts }
    {
        are_within(&self.parts, size)
    }

    /// Returns the index of the last part that begins at a place or before it. Adds to `probes` the number of parts
    /// whose first place it looked at. Does not allocate.
    pub fn find(&self, place: u64, probes: &mut u32) -> Option<usize>
        requires { probes.old ≤ 1000000 }
        ensures found { IsLastFrom self.now.parts place result }
        ensures rises { probes.old ≤ probes.new }
        ensures few { AreFew (length self.now.parts) (probes.new - probes.old) }
    {
        find(&self.parts, place, probes)
    }

    /// Returns the stored bytes from a place on, up to the end of the part that has the place. Returns no bytes exactly
    /// if the place is missing. Does not allocate.
    pub fn bytes_from(&self, place: u64) -> &[u8]
        ensures stored { HasRun self.now.parts place result.now }
        ensures missing { result.now ≡ [] → byte_in self.now.parts place ≡ None }
    {
        let mut probes = 0;
        let Some(at) = find(&self.parts, place, &mut probes) else {
            return &[];
        };
        let part = &self.parts[at];
        let skipped = place - part.first;
        if skipped < part.bytes.len() as u64 {
            &part.bytes[skipped as usize..]
        } else {
            &[]
        }
    }

    /// Returns the first gap of a file that has these segments: from the least missing place to the next one that is
    /// stored, or to the size. Does not allocate.
    pub fn next_gap(&self, size: u64) -> Option<Gap>
        requires { AreWithin size self.now.parts }
        ensures { IsFirstGap (byte_in self.now.parts) size result }
    {
        segments::next_gap(&self.parts, size)
    }

    /// Returns whether a piece differs from a stored byte. Does not allocate.
    pub fn conflicts(&self, first: u64, bytes: &[u8]) -> bool
        requires { first + length bytes.now < 2 ^ 64 }
        ensures differs { IsTrue result → DiffersIn self.now.parts first bytes.now }
        ensures agrees { result ≡ false → AgreesIn self.now.parts first bytes.now }
    {
        overlap::conflicts(&self.parts, first, bytes)
    }

    /// Returns whether each place of a piece is stored. Does not allocate.
    pub fn covers(&self, first: u64, bytes: &[u8]) -> bool
        requires { first + length bytes.now < 2 ^ 64 }
        ensures covers { IsTrue result → Covers self.now.parts first bytes.now }
        ensures new { result ≡ false → HasNew self.now.parts first bytes.now }
    {
        overlap::covers(&self.parts, first, bytes)
    }

    /// Returns the bytes of a piece at places that are not stored, a part for each gap.
    pub fn new_parts(&self, alloc: Global, first: u64, bytes: &[u8]) -> Result<Segments, AllocError>
        requires inside { first + length bytes.now < 2 ^ 64 }
        requires piece { length bytes.now ≤ max_piece }
        ensures adds { IfOk result (λ new. (size : ℕ) → AreWithin size self.now.parts
            → first + length bytes.now ≤ size → Adds size self.now.parts first bytes.now new.parts) }
        ensures some { IfOk result (λ new. HasNew self.now.parts first bytes.now → 0 < length new.parts) }
        ensures apart { IfOk result (λ new. AreSegments (merged self.now.parts new.parts)) }
    {
        let parts = overlap::new_parts(alloc, &self.parts, first, bytes)?;
        let count = overlap::byte_count(&parts);
        Ok(Segments { parts, count })
    }

    /// Makes room for other segments. Allocates if there is not enough room yet.
    pub fn reserve(&mut self, new: &Segments) -> Result<(), AllocError>
        ensures same { self.new.parts ≡ self.old.parts }
        ensures room { OnOk result (length new.now.parts ≤ self.new.room) }
        ensures refused { OnErr result (self.new ≡ self.old) }
        ensures succeeds { length new.now.parts ≤ self.old.room → IsOk result }
    {
        Ok(self.parts.reserve(new.parts.len())?)
    }

    /// Inserts other segments, for which there is room. Does not allocate or move a stored byte.
    pub fn insert(&mut self, new: Segments)
        requires room { length new.parts ≤ self.old.room }
        requires apart { AreSegments (merged self.old.parts new.parts) }
        ensures { self.new.parts ≡ merged self.old.parts new.parts }
    {
        let Segments { parts, count } = new;
        merge(&mut self.parts, parts);
        self.count = self.count.saturating_add(count);
    }

    /// Returns the parts by value, in the order of their places. Does not allocate.
    pub fn into_parts(self) -> Vec<Part>
        ensures { shown_parts result.items ≡ self.parts }
    {
        let Segments { parts, count: _ } = self;
        parts
    }

    /// Returns a reader of the bytes, in the order of their places. Does not allocate.
    pub fn reader(&self) -> SegmentReader<'_>
        ensures bytes { result ≡ joined self.now.parts }
        ensures text { IsTextOf self.now.parts result }
    {
        SegmentReader::new(&self.parts, &[])
    }

    /// Returns a reader of the bytes of both segments, in the order of their places. Does not allocate.
    pub fn reader_with<'a>(&'a self, new: &'a Segments) -> SegmentReader<'a>
        requires { AreSegments (merged self.now.parts new.now.parts) }
        ensures bytes { result ≡ joined (merged self.now.parts new.now.parts) }
        ensures text { IsTextOf (merged self.now.parts new.now.parts) result }
    {
        SegmentReader::new(&self.parts, &new.parts)
    }
}

// The index of the last of the parts that begins at a place or before it.
fn find(parts: &[Part], place: u64, probes: &mut u32) -> Option<usize>
    requires order { AreSegments (shown_parts parts.now) }
    requires probes { probes.old ≤ 1000000 }
    ensures found { IsLastFrom (shown_parts parts.now) place result }
    ensures rises { probes.old ≤ probes.new }
    ensures few { AreFew (length parts.now) (probes.new - probes.old) }
{
    let mut low = 0usize;
    let mut high = parts.len();
    while low < high {
        let middle = low + (high - low) / 2;
        *probes += 1;
        if parts[middle].first <= place {
            low = middle + 1;
        } else {
            high = middle;
        }
    }
    low.checked_sub(1)
}

/// Places of a file that no part has: from `first` up to `end`, which is not included.
#[derive(Clone, Copy, Debug, PartialEq, Eq)]
pub struct Gap {
    pub first: u64,
    pub end: u64,
}

// Returns the first gap of a file that has these parts.
pub(crate) fn next_gap(parts: &[Part], size: u64) -> Option<Gap>
    requires { AreWithin size (shown_parts parts.now) }
    ensures { IsFirstGap (byte_in (shown_parts parts.now)) size result }
{
    let mut first = 0;
    for part in parts {
        if first < part.first {
            let end = part.first;
            return Some(Gap { first, end });
        }
        first = end_of(part);
    }
    let end = size;
    (first < end).then_some(Gap { first, end })
}

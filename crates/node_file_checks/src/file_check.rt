//! The checks of a file that a node fetches, before its feed gets any of it.
ghost use Rattle.std.specs.Prelude.{◌≡◌, ◌↔◌, List, [], ℕ, true, false, length, if◌then◌else◌, IsTrue};
ghost use Rattle.std.specs.Prelude.{IfSome, Ok, Option, Some, None};
ghost use Rattle.feed_model.specs.History.{History};
ghost use Rattle.feed_model.specs.Content.{IsContent};
ghost use Rattle.feed_releases.specs.Feeds.{recorded};
ghost use Rattle.node_file_checks.specs.FileChecks.{HasSeen, MayTake, has_size};
ghost use Rattle.node_file_checks.specs.FileTypes.{HasOtherType};
ghost use Rattle.node_file_checks.specs.PartChecks.{HasReceived, IsGateMismatch, IsMismatch, IsPartMismatch};
ghost use Rattle.node_file_checks.specs.PartChecks.{IsSumMismatch, front_range, range_mismatch, reads_from_front};
ghost use Rattle.node_file_checks.specs.PartChecks.{seen_after, size_after, size_mismatch};
ghost use Rattle.node_file_checks.specs.RowCounts.{HasCounted, seen_with};
ghost use Rattle.node_file_checks.specs.ShrinkGates.{IsChecked};

use crate::expected_file::ExpectedFile;
use crate::file_type::has_other_type;
use crate::front_sum::FrontSum;
use crate::shrink_gate::{HeldList, Hindrance, ShrinkGate};
use feed_http::{FilePart, Got};
use feed_keep::Keep;
use feed_names::ReleaseName;
use feed_releases::Feed;
use std::alloc::Global;

/// How a file differs from what a node or its client expects.
#[derive(Clone, Copy)]
pub enum Mismatch {
    /// The server says that it is of a type that no list has.
    Type,
    /// It has another length.
    Size,
    /// It has another SHA-256 digest.
    Sum,
    /// Its bytes do not arrive from its front on.
    Range,
    /// It has too few rows.
    Rows(HeldList),
    /// Memory ran out.
    Memory,
}

impl Mismatch {
    /// Returns the name of the fault.
    pub fn fault(self) -> &'static str {
        match self {
            Mismatch::Type => "ContentType",
            Mismatch::Size => "OtherSize",
            Mismatch::Sum => "OtherSum",
            Mismatch::Range => "OtherRange",
            Mismatch::Rows(_) => "held",
            Mismatch::Memory => "Memory",
        }
    }
}

/// The checks of the file of one fetch, and what has arrived of it.
#[derive(Drop)]
pub struct FileCheck {
    pub(crate) expected: ExpectedFile,
    /// Whether the file may have any type.
    pub(crate) has_any_type: bool,
    /// Its length, by the response to the HEAD.
    pub(crate) size: u64,
    pub(crate) front: FrontSum,
    /// The rows, if the list may be held for them.
    pub(crate) gate: Option<ShrinkGate>,
}

// Returns how a file differs from one with this sum, by a part of it.
fn sum_mismatch(
    front: &mut FrontSum,
    sum: Option<[u8; 32]>,
    part: &FilePart<'_>,
) -> Option<Mismatch>
    ensures allowed { (wanted seen : List ℕ) → sum ≡ Some wanted → HasSeen front.old seen → result ≡ None
        → MayTake seen part.now.first part.now.bytes.now part.now.length wanted }
    ensures mismatch { (seen : List ℕ) → ((wanted : List ℕ) → sum ≡ Some wanted → HasSeen front.old seen)
        → IsSumMismatch sum seen part.now.first part.now.bytes.now part.now.length result }
    ensures seen { (wanted seen : List ℕ) → sum ≡ Some wanted → HasSeen front.old seen → result ≡ None
        → HasSeen front.new (seen_with seen part.now.first part.now.bytes.now) }
{
    let sum = sum?;
    if front.may_take(part.first, part.bytes, part.length, &sum) {
        None
    } else {
        Some(Mismatch::Sum)
    }
}

// Returns why a list does not pass the gate, by a part of it.
fn gate_mismatch<K: Keep>(
    gate: &mut Option<ShrinkGate>,
    alloc: Global,
    feed: &Feed<K>,
    name: &ReleaseName,
    part: &FilePart<'_>,
) -> Option<Mismatch>
    ensures passed { (h : History) (before : ShrinkGate) (seen : List ℕ) → IsContent (recorded feed.now) h
        → gate.old ≡ Some before → HasCounted before.rows seen → result ≡ None
        → IsChecked h name.now.package_name before.percent seen part.now.first part.now.bytes.now part.now.length
        (Ok tt) }
    ensures counted { (before : ShrinkGate) (seen : List ℕ) → gate.old ≡ Some before → HasCounted before.rows seen
        → result ≡ None → IfSome gate.new (λ after.
        HasCounted after.rows (seen_with seen part.now.first part.now.bytes.now)
        × (after.percent ≡ before.percent)) }
    ensures received { (seen : List ℕ) → IfSome gate.old (λ before. HasCounted before.rows seen)
        → result ≡ None → IfSome gate.new (λ after.
        HasCounted after.rows (seen_with seen part.now.first part.now.bytes.now)) }
    ensures mismatch { (h : History) (seen : List ℕ) → IsContent (recorded feed.now) h
        → IfSome gate.old (λ before. HasCounted before.rows seen)
        → IsGateMismatch h name.now.package_name gate.old seen part.now.first part.now.bytes.now part.now.length
        result }
{
    let gate = gate.as_mut()?;
    match gate.check(alloc, feed, name, part) {
        Ok(()) => None,
        Err(Hindrance::Held(held)) => Some(Mismatch::Rows(held)),
        Err(Hindrance::OtherRange) => Some(Mismatch::Range),
        Err(Hindrance::Memory) => Some(Mismatch::Memory),
    }
}

impl FileCheck {
    pub fn new(expected: ExpectedFile, has_any_type: bool, gate: Option<ShrinkGate>) -> FileCheck
        ensures expected { result.expected ≡ expected }
        ensures has_any_type { result.has_any_type ≡ has_any_type }
        ensures gate { result.gate ≡ gate }
        ensures received { IfSome gate (λ before. HasCounted before.rows []) → HasReceived result [] }
    {
        FileCheck {
            expected,
            has_any_type,
            size: 0,
            front: FrontSum::new(),
            gate,
        }
    }

    /// Returns the length of the file, if its bytes are requested from the front on, also those that the feed has: its
    /// sum is to be compared, or its rows are counted. The feed compares the bytes.
    pub fn read_size(&self) -> Option<u64>
        ensures { result ≡ (if reads_from_front self.now then Some self.now.size else None) }
    {
        if self.expected.sum.is_some() || self.gate.is_some() {
            Some(self.size)
        } else {
            None
        }
    }

    // Returns the number of bytes from the front on that were read.
    fn count(&self) -> u64
        ensures { (seen : List ℕ) → HasReceived self.now seen → IsTrue (reads_from_front self.now)
            → result ≡ length seen }
    {
        match &self.gate {
            Some(gate) => gate.count(),
            None => self.front.count(),
        }
    }

    /// Returns the first and the last place of the next request for at most `piece` places if the file is read from its
    /// front on: what follows the bytes that were read.
    pub fn front_range(&self, piece: u64) -> Option<(u64, u64)>
        ensures { (seen : List ℕ) → HasReceived self.now seen
            → result ≡ front_range self.now seen piece }
    {
        match self.read_size() {
            Some(size) if self.count() < size => {
                let first = self.count();
                Some((
                    first,
                    first.saturating_add(piece).min(size).saturating_sub(1),
                ))
            }
            _ => None,
        }
    }

    /// Returns whether a response with this head has a file of a type that no list has.
    pub fn refuses_type(&self, reply: &[u8]) -> bool
        ensures { IsTrue result ↔ ((self.now.has_any_type ≡ false) × HasOtherType reply.now) }
    {
        !self.has_any_type && has_other_type(reply)
    }

    /// Returns the fault of a file whose bytes do not arrive from its front on.
    pub fn range_mismatch(&self) -> Mismatch
        ensures { result ≡ range_mismatch self.now }
    {
        if self.expected.sum.is_some() {
            Mismatch::Sum
        } else {
            Mismatch::Range
        }
    }

    /// Returns how the file differs from what the client and the node expect, by the result of a request for the
    /// release.
    pub fn mismatch_of<K: Keep>(
        &mut self,
        alloc: Global,
        feed: &Feed<K>,
        name: &ReleaseName,
        got: &Got,
    ) -> Option<Mismatch>
        ensures rows { (h : History) (before : ShrinkGate) (seen bytes : List ℕ) (first : ℕ) (total : Option ℕ)
            → IsContent (recorded feed.now) h → self.old.gate ≡ Some before → HasCounted before.rows seen
            → got.now ≡ Got.Piece first total bytes → result ≡ None
            → IsChecked h name.now.package_name before.percent seen first bytes self.old.size (Ok tt) }
        ensures mismatch { (h : History) (seen : List ℕ) → IsContent (recorded feed.now) h
            → HasReceived self.old seen → IsMismatch h name.now.package_name self.old seen got.now result }
        ensures received { (seen : List ℕ) → HasReceived self.old seen → result ≡ None
            → HasReceived self.new (seen_after seen got.now) }
        ensures expected { self.new.expected ≡ self.old.expected }
        ensures size { self.new.size ≡ size_after self.old.size got.now }
    {
        match got {
            Got::Size(size) => {
                self.size = *size;
                self.size_mismatch(*size)
            }
            Got::Piece {
                first,
                total: _,
                bytes,
            } => {
                // A part from another place than was requested does not advance the sum or the rows.
                if self.read_size().is_some() && *first != self.count() {
                    return Some(self.range_mismatch());
                }
                let part = FilePart {
                    first: *first,
                    length: self.size,
                    bytes: bytes.as_slice(),
                };
                self.part_mismatch(alloc, feed, name, &part)
            }
            Got::Whole { bytes } => {
                let part = FilePart {
                    first: 0,
                    length: bytes.as_slice().len() as u64,
                    bytes: bytes.as_slice(),
                };
                self.part_mismatch(alloc, feed, name, &part)
            }
            Got::Missing | Got::Unsatisfied { total: _ } => None,
        }
    }

    fn size_mismatch(&self, size: u64) -> Option<Mismatch>
        ensures { result ≡ size_mismatch self.now.expected.size size }
    {
        if self.expected.has_size(size) {
            None
        } else {
            Some(Mismatch::Size)
        }
    }

    /// Returns how the file of a release differs, by a part of it.
    pub fn part_mismatch<K: Keep>(
        &mut self,
        alloc: Global,
        feed: &Feed<K>,
        name: &ReleaseName,
        part: &FilePart<'_>,
    ) -> Option<Mismatch>
        ensures size { result ≡ None → has_size self.old.expected.size part.now.length ≡ true }
        ensures sum { (wanted seen : List ℕ) → self.old.expected.sum ≡ Some wanted → HasSeen self.old.front seen
            → result ≡ None → MayTake seen part.now.first part.now.bytes.now part.now.length wanted }
        ensures rows { (h : History) (before : ShrinkGate) (seen : List ℕ) → IsContent (recorded feed.now) h
            → self.old.gate ≡ Some before → HasCounted before.rows seen → result ≡ None
            → IsChecked h name.now.package_name before.percent seen part.now.first part.now.bytes.now part.now.length
            (Ok tt) }
        ensures counted { (before : ShrinkGate) (seen : List ℕ) → self.old.gate ≡ Some before
            → HasCounted before.rows seen → result ≡ None → IfSome self.new.gate (λ after.
            HasCounted after.rows (seen_with seen part.now.first part.now.bytes.now)
            × (after.percent ≡ before.percent)) }
        ensures mismatch { (h : History) (seen : List ℕ) → IsContent (recorded feed.now) h
            → HasReceived self.old seen → IsPartMismatch h name.now.package_name self.old seen
            part.now.first part.now.bytes.now part.now.length result }
        ensures received { (seen : List ℕ) → HasReceived self.old seen → result ≡ None
            → HasReceived self.new (seen_with seen part.now.first part.now.bytes.now) }
        ensures expected { self.new.expected ≡ self.old.expected }
        ensures kept_size { self.new.size ≡ self.old.size }
    {
        if let Some(mismatch) = self.size_mismatch(part.length) {
            return Some(mismatch);
        }
        let sum = self.expected.sum;
        if let Some(mismatch) = sum_mismatch(&mut self.front, sum, part) {
            return Some(mismatch);
        }
        gate_mismatch(&mut self.gate, alloc, feed, name, part)
    }
}

//! Comparing a piece with the stored parts: conflicting bytes, new bytes, and covered places.
ghost use Rattle.std.specs.Prelude.{◌≡◌, ◌+◌, ◌-◌, ◌<◌, ◌≤◌, ◌^◌};
ghost use Rattle.std.specs.Prelude.{◌++◌, ℕ, [], ◌∷◌};
ghost use Rattle.std.specs.Prelude.{false, length, vec_len, All, IsTrue, IfOk, OnOk};
ghost use Rattle.feed_model.specs.Reply.{max_piece};
ghost use Rattle.feed_model.specs.Content.{byte_in};
ghost use Rattle.feed_model.specs.Parts.{AgreesIn, Adds, AreWithin, Covers, DiffersIn, HasNew};
ghost use Rattle.feed_parts.specs.Cut.{cut, cuts};
ghost use Rattle.feed_parts.specs.Piece.{total_length};
ghost use Rattle.feed_parts.specs.Segments.{AreSegments};
ghost use Rattle.feed_parts.specs.Shown.{shown_part, shown_parts};

use crate::part::{Part, end_of};
use std::alloc::{AllocError, Global};

// The parts that have a place from `first` up to `end`, which is not included.
fn meeting(parts: &[Part], first: u64, end: u64) -> &[Part]
    requires order { AreSegments (shown_parts parts.now) }
    ensures order { AreSegments (shown_parts result.now) }
    ensures begins { All (λ p. p.first < end) (shown_parts result.now) }
    ensures same { (place : ℕ) → first ≤ place → place < end
        → byte_in (shown_parts result.now) place ≡ byte_in (shown_parts parts.now) place }
{
    let from = parts.partition_point(|part| end_of(part) <= first);
    let rest = &parts[from..];
    let to = rest.partition_point(|part| part.first < end);
    &rest[..to]
}

// Returns whether the piece differs from a stored byte.
pub(crate) fn conflicts(parts: &[Part], first: u64, bytes: &[u8]) -> bool
    requires order { AreSegments (shown_parts parts.now) }
    requires inside { first + length bytes.now < 2 ^ 64 }
    ensures differs { IsTrue result → DiffersIn (shown_parts parts.now) first bytes.now }
    ensures agrees { result ≡ false → AgreesIn (shown_parts parts.now) first bytes.now }
{
    let end = first + bytes.len() as u64;
    for part in meeting(parts, first, end) {
        if differs(part, first, bytes) {
            return true;
        }
    }
    false
}

// Returns whether the piece differs from a byte of the part.
fn differs(part: &Part, first: u64, bytes: &[u8]) -> bool
    requires part { part.now.first + vec_len part.now.bytes < 2 ^ 64 }
    requires piece { first + length bytes.now < 2 ^ 64 }
    ensures differs { IsTrue result → DiffersIn (shown_part part.now ∷ []) first bytes.now }
    ensures agrees { result ≡ false → AgreesIn (shown_part part.now ∷ []) first bytes.now }
{
    let low = part.first.max(first);
    let high = end_of(part).min(first + bytes.len() as u64);
    low < high && slice_at(&part.bytes, part.first, low, high) != slice_at(bytes, first, low, high)
}

// The bytes at the places from `low` up to `high`, of bytes that begin at `first`.
fn slice_at(bytes: &[u8], first: u64, low: u64, high: u64) -> &[u8]
    requires low { first ≤ low }
    requires order { low ≤ high }
    requires high { high ≤ first + length bytes.now }
    ensures { result.now ≡ (cut first bytes.now low high).bytes }
{
    &bytes[(low - first) as usize..(high - first) as usize]
}

// Returns whether each place of the piece is stored.
pub(crate) fn covers(parts: &[Part], first: u64, bytes: &[u8]) -> bool
    requires order { AreSegments (shown_parts parts.now) }
    requires inside { first + length bytes.now < 2 ^ 64 }
    ensures covers { IsTrue result → Covers (shown_parts parts.now) first bytes.now }
    ensures new { result ≡ false → HasNew (shown_parts parts.now) first bytes.now }
{
    let end = first + bytes.len() as u64;
    let mut place = first;
    for part in meeting(parts, first, end) {
        if place < part.first {
            return false;
        }
        place = place.max(end_of(part));
    }
    end <= place
}

// The bytes of the piece at places that are not stored, a part for each gap, in order.
pub(crate) fn new_parts(
    alloc: Global,
    parts: &[Part],
    first: u64,
    bytes: &[u8],
) -> Result<Vec<Part>, AllocError>
    requires order { AreSegments (shown_parts parts.now) }
    requires inside { first + length bytes.now < 2 ^ 64 }
    requires piece { length bytes.now ≤ max_piece }
    ensures adds { IfOk result (λ new. (size : ℕ) → AreWithin size (shown_parts parts.now)
        → first + length bytes.now ≤ size → Adds size (shown_parts parts.now) first bytes.now (shown_parts new.items)) }
    ensures some { IfOk result (λ new. HasNew (shown_parts parts.now) first bytes.now → 0 < length new.items) }
{
    let end = first + bytes.len() as u64;
    let mut new = Vec::new(alloc);
    let mut place = first;
    for part in meeting(parts, first, end) {
        push_cut(alloc, &mut new, first, bytes, place, part.first)?;
        place = place.max(end_of(part));
    }
    push_cut(alloc, &mut new, first, bytes, place, end)?;
    Ok(new)
}

// Appends the piece's bytes at the places from `low` up to `high` as a part, if there are any.
fn push_cut(
    alloc: Global,
    new: &mut Vec<Part>,
    first: u64,
    bytes: &[u8],
    low: u64,
    high: u64,
) -> Result<(), AllocError>
    requires low { first ≤ low }
    requires high { high ≤ first + length bytes.now }
    ensures { OnOk result (shown_parts new.new.items ≡ shown_parts new.old.items ++ cuts first bytes.now low high) }
{
    if low < high {
        new.push(Part {
            first: low,
            bytes: Vec::from_slice(alloc, slice_at(bytes, first, low, high))?,
        })?;
    }
    Ok(())
}

// The number of bytes that parts have.
pub(crate) fn byte_count(parts: &[Part]) -> u64
    requires { AreSegments (shown_parts parts.now) }
    ensures { result ≡ total_length (shown_parts parts.now) }
{
    let mut count = 0u64;
    for part in parts {
        count = count.saturating_add(part.bytes.len() as u64);
    }
    count
}

//! A part: consecutive bytes of a file.
ghost use Rattle.std.specs.Prelude.{◌≡◌, ◌↔◌, ◌+◌, ◌-◌, ◌^◌, min, IfOk, IsTrue, vec_len};
ghost use Rattle.feed_parts.specs.Shown.{shown_parts};
ghost use Rattle.feed_model.specs.Parts.{AreWithin};

use feed_limits::PIECE_LIMIT;
use std::alloc::{AllocError, Global};

/// Bytes of a file, and the place of the first of them, counted from 0.
#[derive(Debug, Drop)]
pub struct Part {
    pub first: u64,
    pub bytes: Vec<u8>,
}

/// Returns the place after the part's last byte, or the greatest place if it is beyond.
pub(crate) fn end_of(part: &Part) -> u64
    ensures { result ≡ min (part.now.first + vec_len part.now.bytes) (2 ^ 64 - 1) }
{
    part.first.saturating_add(part.bytes.len() as u64)
}

/// Copies the parts.
pub fn copy_parts(alloc: Global, parts: &[Part]) -> Result<Vec<Part>, AllocError>
    ensures { IfOk result (λ copy. shown_parts copy.items ≡ shown_parts parts.now) }
{
    let mut copy = Vec::with_capacity(alloc, parts.len())?;
    for part in parts {
        copy.push(Part {
            first: part.first,
            bytes: Vec::from_slice(alloc, &part.bytes)?,
        })?;
    }
    Ok(copy)
}

// Returns whether the parts are in order, each of 1 to 1,048,576 bytes, and none extends past the size of the file.
pub(crate) fn are_within(parts: &[Part], size: u64) -> bool
    ensures { IsTrue result ↔ AreWithin size (shown_parts parts.now) }
{
    let mut place = 0;
    for part in parts {
        let length = part.bytes.len() as u64;
        if length == 0 || part.bytes.len() > PIECE_LIMIT || part.first < place {
            return false;
        }
        if length > size.saturating_sub(part.first) {
            return false;
        }
        place = part.first + length;
    }
    true
}

//! Texts in a block of bytes, each behind its length.
ghost use Rattle.std.specs.Prelude.{◌≡◌, ◌↔◌, ◌++◌, IfOk, IsTrue, OnOk, length, take, drop};
ghost use Rattle.feed_kbart.specs.Stored.{IsShort, length_bytes, split_long, split_text};
ghost use Rattle.feed_kbart.specs.Stored.{text_bytes, texts_in};

use std::alloc::AllocError;

// The byte before a length of four bytes.
const LONG: u8 = 255;

// Returns the length of a text. No text of a file is so long that its length does not fit.
fn length_of(text: &[u8]) -> Result<u32, AllocError>
    ensures { IfOk result (λ size. size ≡ length text.now) }
{
    match u32::try_from(text.len()) {
        Ok(size) => Ok(size),
        Err(_) => Err(AllocError),
    }
}

// Appends a length.
fn put_length(block: &mut Vec<u8>, size: u32) -> Result<(), AllocError>
    ensures { OnOk result (block.new.items ≡ block.old.items ++ length_bytes size) }
{
    if size < LONG as u32 {
        block.push(size as u8)?;
    } else {
        block.push(LONG)?;
        block.extend_from_slice(&size.to_le_bytes())?;
    }
    Ok(())
}

/// Appends a text behind its length.
pub(crate) fn put_text(block: &mut Vec<u8>, text: &[u8]) -> Result<(), AllocError>
    ensures added { OnOk result (block.new.items ≡ block.old.items ++ text_bytes text.now) }
    ensures short { OnOk result (IsShort text.now) }
{
    // Many cells are empty.
    if text.is_empty() {
        return put_length(block, 0);
    }
    let size = length_of(text)?;
    put_length(block, size)?;
    block.extend_from_slice(text)?;
    Ok(())
}

/// Splits bytes after so many, or at their end.
pub(crate) fn cut(bytes: &[u8], size: usize) -> (&[u8], &[u8])
    ensures front { result.0.now ≡ take size bytes.now }
    ensures back { result.1.now ≡ drop size bytes.now }
{
    if size <= bytes.len() {
        bytes.split_at(size)
    } else {
        (bytes, &[])
    }
}

// Returns the text behind a length of four bytes, and the bytes after it.
fn split_long(bytes: &[u8]) -> (&[u8], &[u8])
    ensures front { result.0.now ≡ (split_long bytes.now).0 }
    ensures back { result.1.now ≡ (split_long bytes.now).1 }
{
    match bytes {
        [a, b, c, d, text @ ..] => cut(text, u32::from_le_bytes([*a, *b, *c, *d]) as usize),
        _ => (&[], &[]),
    }
}

/// Returns the first text, and the bytes after it.
#[inline(always)]
pub(crate) fn split_text(bytes: &[u8]) -> (&[u8], &[u8])
    ensures front { result.0.now ≡ (split_text bytes.now).0 }
    ensures back { result.1.now ≡ (split_text bytes.now).1 }
{
    match bytes {
        [] => (&[], &[]),
        [size, text @ ..] => {
            if *size == LONG {
                split_long(text)
            } else {
                cut(text, *size as usize)
            }
        }
    }
}

/// Returns whether the first texts of one block are those of another, so many of them.
pub(crate) fn has_same_texts(one: &[u8], other: &[u8], count: usize) -> bool
    ensures { IsTrue result ↔ (texts_in count one.now ≡ texts_in count other.now) }
{
    let mut left = one;
    let mut right = other;
    for _compared in 0..count {
        let (first, next_left) = split_text(left);
        let (second, next_right) = split_text(right);
        if first != second {
            return false;
        }
        left = next_left;
        right = next_right;
    }
    true
}

//! Decoding the key/value pairs of a query (`application/x-www-form-urlencoded`).
ghost use Rattle.std.specs.Prelude.{◌≡◌, IfOk, map};
ghost use Rattle.std.specs.Cow.{cow_slice_items};
ghost use Rattle.form_urlencoded.specs.Form as form;
ghost use Rattle.percent_encoding.specs.Percent as percent;

use crate::pair::Pair;
use form_urlencoded::raw_pairs;
use percent_encoding::percent_decode;
use std::alloc::{AllocError, Global};
use std::borrow::CowSlice;

// The text with a space for each `+`.
fn replace_plus(alloc: Global, text: &[u8]) -> Result<Vec<u8>, AllocError>
    ensures { IfOk result (λ v. v.items ≡ map form.plus_to_space text.now) }
{
    let mut spaced = Vec::with_capacity(alloc, text.len())?;
    for byte in text {
        spaced.push(if *byte == b'+' { b' ' } else { *byte })?;
    }
    Ok(spaced)
}

// The text with the byte for each `%` that two hexadecimal digits follow.
fn unescape(alloc: Global, text: &[u8]) -> Result<Vec<u8>, AllocError>
    ensures { IfOk result (λ v. v.items ≡ percent.percent_decode text.now) }
{
    let mut bytes = Vec::with_capacity(alloc, text.len())?;
    percent_decode(text).append_to(&mut bytes)?;
    Ok(bytes)
}

/// Decodes a key or a value: `+` is a space, and `%` with two hexadecimal digits is a byte. Any other `%` is
/// itself. A text that has neither is borrowed.
pub fn decode_text(alloc: Global, text: &[u8]) -> Result<CowSlice<'_, u8, Global>, AllocError>
    ensures { IfOk result (λ v. cow_slice_items v ≡ form.decode text.now) }
{
    if !text.contains(&b'+') {
        return percent_decode(text).into_cow(alloc);
    }
    let spaced = replace_plus(alloc, text)?;
    Ok(CowSlice::Owned(unescape(alloc, &spaced)?))
}

/// Returns the pairs of a query, in order. Skips what is empty between `&`. A key without `=` has the empty value.
pub fn decode_pairs(alloc: Global, text: &[u8]) -> Result<Vec<Pair<'_>>, AllocError>
    ensures { IfOk result (λ pairs. pairs.items ≡ form.parse text.now) }
{
    let mut pairs = Vec::new(alloc);
    for (key, value) in raw_pairs(text) {
        let key = decode_text(alloc, key)?;
        let value = decode_text(alloc, value)?;
        pairs.push(Pair::of(key, value))?;
    }
    Ok(pairs)
}

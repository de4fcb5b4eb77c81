//! The characters of a value: UTF-8, or Windows-1252 as older sources send it.
ghost use Rattle.std.specs.Prelude.{◌≡◌, IfOk};
ghost use Rattle.std.specs.Cow.{cow_slice_items};
ghost use Rattle.std.specs.List.{filter_map, list_all};
ghost use Rattle.std.specs.Str.{chars};
ghost use Rattle.feed_openurl.specs.Plain.{has_no_width, is_ascii_byte, is_dash, is_date_sign, is_issue_sign};
ghost use Rattle.feed_openurl.specs.Plain.{is_space, is_volume_sign, plain, plain_byte, plain_sign, plain_windows};

use std::alloc::{AllocError, Global};
use std::borrow::CowSlice;

// Whether a character is a dash of Unicode.
fn is_dash(c: u32) -> bool
    ensures { result ≡ is_dash c }
{
    (0x2010..=0x2015).contains(&c) || c == 0x2212 || c == 0xFE58 || c == 0xFE63 || c == 0xFF0D
}

// Whether a character is a space of Unicode.
fn is_space(c: u32) -> bool
    ensures { result ≡ is_space c }
{
    c == 0xA0 || (0x2000..=0x200A).contains(&c) || c == 0x202F || c == 0x205F || c == 0x3000
}

// Whether a character shows nothing.
fn has_no_width(c: u32) -> bool
    ensures { result ≡ has_no_width c }
{
    c == 0xAD
        || (0x200B..=0x200F).contains(&c)
        || (0x202A..=0x202E).contains(&c)
        || (0x2060..=0x206F).contains(&c)
        || c == 0xFEFF
}

// Whether a character is the sign of a year or a month in Chinese, Japanese or Korean.
fn is_date_sign(c: u32) -> bool
    ensures { result ≡ is_date_sign c }
{
    c == 0x5E74 || c == 0x6708 || c == 0xB144 || c == 0xC6D4
}

// The same of a day or a volume.
fn is_volume_sign(c: u32) -> bool
    ensures { result ≡ is_volume_sign c }
{
    c == 0x65E5
        || c == 0xC77C
        || c == 0x5377
        || c == 0x5DFB
        || c == 0xAD8C
        || c == 0x518C
        || c == 0x518A
}

// The same before or behind the number of an issue.
fn is_issue_sign(c: u32) -> bool
    ensures { result ≡ is_issue_sign c }
{
    c == 0x7B2C
        || c == 0xC81C
        || c == 0x53F7
        || c == 0x865F
        || c == 0xD638
        || c == 0x671F
        || c == 0x96C6
        || c == 0x8F2F
        || c == 0xC9D1
}

// The byte of a letter or a sign beyond ASCII: a slash between the parts of a date, a space beside other numbers, or an
// underscore.
fn plain_sign(c: u32) -> u8
    ensures { result ≡ plain_sign c }
{
    if is_date_sign(c) {
        b'/'
    } else if is_volume_sign(c) || is_issue_sign(c) {
        b' '
    } else {
        b'_'
    }
}

// The byte of a character: a hyphen for each dash, a space for each space, that of a sign, and nothing for a character
// without width.
fn plain_byte(c: u32) -> Option<u8>
    ensures { result ≡ plain_byte c }
{
    if c < 128 {
        Some(c as u8)
    } else if has_no_width(c) {
        None
    } else if is_dash(c) {
        Some(b'-')
    } else if is_space(c) {
        Some(b' ')
    } else {
        Some(plain_sign(c))
    }
}

// The byte of a byte in Windows-1252.
fn plain_windows(byte: u8) -> Option<u8>
    ensures { result ≡ plain_windows byte }
{
    if byte == 0x96 || byte == 0x97 {
        Some(b'-')
    } else {
        plain_byte(u32::from(byte))
    }
}

fn is_ascii(value: &[u8]) -> bool
    ensures { result ≡ list_all is_ascii_byte value.now }
{
    value.iter().all(|byte| *byte < 128)
}

fn plain_text(alloc: Global, text: &str) -> Result<Vec<u8>, AllocError>
    ensures { IfOk result (λ bytes. bytes.items ≡ filter_map plain_byte (chars text.now)) }
{
    let mut bytes = Vec::new(alloc);
    for c in text.chars() {
        if let Some(byte) = plain_byte(u32::from(c)) {
            bytes.push(byte)?;
        }
    }
    Ok(bytes)
}

fn plain_bytes(alloc: Global, value: &[u8]) -> Result<Vec<u8>, AllocError>
    ensures { IfOk result (λ bytes. bytes.items ≡ filter_map plain_windows value.now) }
{
    let mut bytes = Vec::new(alloc);
    for byte in value {
        if let Some(byte) = plain_windows(*byte) {
            bytes.push(byte)?;
        }
    }
    Ok(bytes)
}

/// Returns a value in ASCII: a hyphen for each dash, a space for each space, a slash or a space for a sign beside a
/// number in Chinese, Japanese or Korean, and `_` for any other character beyond ASCII. A value in ASCII is borrowed.
pub(crate) fn plain(alloc: Global, value: &[u8]) -> Result<CowSlice<'_, u8, Global>, AllocError>
    ensures { IfOk result (λ text. cow_slice_items text ≡ plain value.now) }
{
    if is_ascii(value) {
        return Ok(CowSlice::Borrowed(value));
    }
    match str::from_utf8(value) {
        Ok(text) => Ok(CowSlice::Owned(plain_text(alloc, text)?)),
        Err(_) => Ok(CowSlice::Owned(plain_bytes(alloc, value)?)),
    }
}

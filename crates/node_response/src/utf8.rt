//! Texts in UTF-8: a text that is not is taken for Windows-1252, as older sources send it.
ghost use Rattle.std.specs.Prelude.{◌≡◌, IfOk};
ghost use Rattle.std.specs.Cow.{cow_slice_items};
ghost use Rattle.std.specs.Str.{is_utf8};
ghost use Rattle.node_response.specs.Utf8.{from_windows_1252, in_utf8, windows_1252};

use std::alloc::{AllocError, Global};
use std::borrow::CowSlice;

// The characters of the bytes from 128 in Windows-1252 (WHATWG Encoding, section 9), with U+FFFD in place of its five
// control characters.
const UPPER: [char; 128] = [
    '\u{20AC}', '\u{FFFD}', '\u{201A}', '\u{0192}', '\u{201E}', '\u{2026}', '\u{2020}', '\u{2021}',
    '\u{02C6}', '\u{2030}', '\u{0160}', '\u{2039}', '\u{0152}', '\u{FFFD}', '\u{017D}', '\u{FFFD}',
    '\u{FFFD}', '\u{2018}', '\u{2019}', '\u{201C}', '\u{201D}', '\u{2022}', '\u{2013}', '\u{2014}',
    '\u{02DC}', '\u{2122}', '\u{0161}', '\u{203A}', '\u{0153}', '\u{FFFD}', '\u{017E}', '\u{0178}',
    '\u{00A0}', '\u{00A1}', '\u{00A2}', '\u{00A3}', '\u{00A4}', '\u{00A5}', '\u{00A6}', '\u{00A7}',
    '\u{00A8}', '\u{00A9}', '\u{00AA}', '\u{00AB}', '\u{00AC}', '\u{00AD}', '\u{00AE}', '\u{00AF}',
    '\u{00B0}', '\u{00B1}', '\u{00B2}', '\u{00B3}', '\u{00B4}', '\u{00B5}', '\u{00B6}', '\u{00B7}',
    '\u{00B8}', '\u{00B9}', '\u{00BA}', '\u{00BB}', '\u{00BC}', '\u{00BD}', '\u{00BE}', '\u{00BF}',
    '\u{00C0}', '\u{00C1}', '\u{00C2}', '\u{00C3}', '\u{00C4}', '\u{00C5}', '\u{00C6}', '\u{00C7}',
    '\u{00C8}', '\u{00C9}', '\u{00CA}', '\u{00CB}', '\u{00CC}', '\u{00CD}', '\u{00CE}', '\u{00CF}',
    '\u{00D0}', '\u{00D1}', '\u{00D2}', '\u{00D3}', '\u{00D4}', '\u{00D5}', '\u{00D6}', '\u{00D7}',
    '\u{00D8}', '\u{00D9}', '\u{00DA}', '\u{00DB}', '\u{00DC}', '\u{00DD}', '\u{00DE}', '\u{00DF}',
    '\u{00E0}', '\u{00E1}', '\u{00E2}', '\u{00E3}', '\u{00E4}', '\u{00E5}', '\u{00E6}', '\u{00E7}',
    '\u{00E8}', '\u{00E9}', '\u{00EA}', '\u{00EB}', '\u{00EC}', '\u{00ED}', '\u{00EE}', '\u{00EF}',
    '\u{00F0}', '\u{00F1}', '\u{00F2}', '\u{00F3}', '\u{00F4}', '\u{00F5}', '\u{00F6}', '\u{00F7}',
    '\u{00F8}', '\u{00F9}', '\u{00FA}', '\u{00FB}', '\u{00FC}', '\u{00FD}', '\u{00FE}', '\u{00FF}',
];

fn windows_1252(byte: u8) -> char
    ensures { result ≡ windows_1252 byte }
{
    if byte < 128 {
        return char::from(byte);
    }
    UPPER[usize::from(byte - 128)]
}

fn from_windows_1252(alloc: Global, text: &[u8]) -> Result<Vec<u8>, AllocError>
    ensures { IfOk result (λ shown. shown.items ≡ from_windows_1252 text.now) }
{
    let mut shown = String::new(alloc);
    for byte in text {
        shown.push(windows_1252(*byte))?;
    }
    Ok(shown.into_bytes())
}

fn is_utf8(text: &[u8]) -> bool
    ensures { result ≡ is_utf8 text.now }
{
    match simdutf8::basic::from_utf8(text) {
        Ok(_) => true,
        Err(_) => false,
    }
}

/// Returns a text in UTF-8: itself, or what it is in Windows-1252.
#[tactic(auto, unfolding(crate::specs::Utf8::in_utf8))]
pub(crate) fn in_utf8<'a>(
    alloc: Global,
    text: &'a [u8],
) -> Result<CowSlice<'a, u8, Global>, AllocError>
    ensures { IfOk result (λ shown. cow_slice_items shown ≡ in_utf8 text.now) }
{
    if is_utf8(text) {
        return Ok(CowSlice::Borrowed(text));
    }
    let shown = from_windows_1252(alloc, text)?;
    Ok(CowSlice::Owned(shown))
}

/// Returns the bytes of a page in UTF-8: themselves, or what they are in Windows-1252.
#[tactic(auto, unfolding(crate::specs::Utf8::in_utf8))]
pub(crate) fn page_in_utf8(alloc: Global, page: Vec<u8>) -> Result<Vec<u8>, AllocError>
    ensures { IfOk result (λ shown. shown.items ≡ in_utf8 page.items) }
{
    if is_utf8(&page) {
        Ok(page)
    } else {
        from_windows_1252(alloc, &page)
    }
}

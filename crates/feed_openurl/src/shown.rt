//! The text of a value as a citation shows it.
ghost use Rattle.std.specs.Prelude.{◌≡◌, IfOk, OnOk, fold, string_bytes, []};
ghost use Rattle.std.specs.Str.{chars};
ghost use Rattle.feed_openurl.specs.Shown.{is_control, is_mark, shown_char, shown};
ghost use Rattle.feed_openurl.specs.Shown.{windows_1252, with_byte, with_char};

use std::alloc::{AllocError, Global};

// The characters of the bytes 128 to 159 in Windows-1252 (WHATWG Encoding, section 9), with U+FFFD in place of its five
// control characters.
const UPPER: [char; 32] = [
    '\u{20AC}', '\u{FFFD}', '\u{201A}', '\u{0192}', '\u{201E}', '\u{2026}', '\u{2020}', '\u{2021}',
    '\u{02C6}', '\u{2030}', '\u{0160}', '\u{2039}', '\u{0152}', '\u{FFFD}', '\u{017D}', '\u{FFFD}',
    '\u{FFFD}', '\u{2018}', '\u{2019}', '\u{201C}', '\u{201D}', '\u{2022}', '\u{2013}', '\u{2014}',
    '\u{02DC}', '\u{2122}', '\u{0161}', '\u{203A}', '\u{0153}', '\u{FFFD}', '\u{017E}', '\u{0178}',
];

// The character of a byte in Windows-1252.
fn windows_1252(byte: u8) -> char
    ensures { result ≡ windows_1252 byte }
{
    if byte < 128 || byte >= 160 {
        return char::from(byte);
    }
    UPPER[usize::from(byte - 128)]
}

// Whether a character is a control, or ends a line or a paragraph.
fn is_control(c: u32) -> bool
    ensures { result ≡ is_control c }
{
    c < 32 || (127..=159).contains(&c) || (0x2028..=0x2029).contains(&c)
}

// Whether a character turns the direction of reading, or shows nothing.
fn is_mark(c: u32) -> bool
    ensures { result ≡ is_mark c }
{
    c == 0x200B
        || (0x200E..=0x200F).contains(&c)
        || (0x202A..=0x202E).contains(&c)
        || (0x2060..=0x206F).contains(&c)
        || c == 0xFEFF
}

// The character as it is shown: a space for a control, and nothing for a mark.
fn shown_char(c: char) -> Option<char>
    ensures { result ≡ shown_char c }
{
    let code = u32::from(c);
    if is_control(code) {
        Some(' ')
    } else if is_mark(code) {
        None
    } else {
        Some(c)
    }
}

// Appends a character as it is shown. No space begins a text.
fn push_shown(text: &mut String, c: char) -> Result<(), AllocError>
    ensures { OnOk result (string_bytes text.new ≡ with_char (string_bytes text.old) c) }
{
    let Some(c) = shown_char(c) else {
        return Ok(());
    };
    if c == ' ' && text.as_bytes().is_empty() {
        return Ok(());
    }
    text.push(c)
}

fn show_text(alloc: Global, text: &str) -> Result<String, AllocError>
    ensures { IfOk result (λ shown. string_bytes shown ≡ fold with_char [] (chars text.now)) }
{
    let mut shown = String::new(alloc);
    for c in text.chars() {
        push_shown(&mut shown, c)?;
    }
    Ok(shown)
}

fn show_bytes(alloc: Global, value: &[u8]) -> Result<String, AllocError>
    ensures { IfOk result (λ shown. string_bytes shown ≡ fold with_byte [] value.now) }
{
    let mut shown = String::new(alloc);
    for byte in value {
        push_shown(&mut shown, windows_1252(*byte))?;
    }
    Ok(shown)
}

/// Returns a value as a citation shows it.
#[tactic(auto, unfolding(crate::specs::Shown::shown))]
pub(crate) fn shown_text(alloc: Global, value: &[u8]) -> Result<String, AllocError>
    ensures { IfOk result (λ text. string_bytes text ≡ shown value.now) }
{
    match str::from_utf8(value) {
        Ok(text) => show_text(alloc, text),
        Err(_) => show_bytes(alloc, value),
    }
}

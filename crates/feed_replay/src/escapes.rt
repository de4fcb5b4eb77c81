//! The escapes in the text of a published file.
ghost use Rattle.std.specs.Prelude.{◌≡◌, ◌⊎◌, ◌<◌, ◌∷◌, [], length, IfOk, IfErr, IfSome, IfNone};
ghost use Rattle.feed_replay.specs.Escapes.{Among, Behind, bytes_from, hex_value, unescaped, with_bytes};

use crate::line_fault::LineFault;
use crate::words::split_at;
use std::alloc::Global;

/// Returns a text with its escapes `\t`, `\n`, `\r`, `\\` and `\xHH` replaced by their bytes.
///
/// # Errors
///
/// Returns `BadText` if a `\` begins no escape, and `Memory` if an allocation fails.
pub fn unescape(alloc: Global, text: &[u8]) -> Result<Vec<u8>, LineFault>
    ensures bytes { IfOk result (λ bytes. unescaped text.now ≡ Some bytes.items) }
    ensures fault { IfErr result (λ fault.
        (fault ≡ LineFault.Memory) ⊎ ((fault ≡ LineFault.BadText) × (unescaped text.now ≡ None))) }
{
    let mut bytes = Vec::with_capacity(alloc, text.len())?;
    let mut rest = text;
    loop {
        let (plain, behind) = split_at(rest, b'\\');
        bytes.extend_from_slice(plain)?;
        let Some(escape) = behind else {
            return Ok(bytes);
        };
        let Some((byte, after)) = read_escape(escape) else {
            return Err(LineFault::BadText);
        };
        bytes.push(byte)?;
        rest = after;
    }
}

// Parses an escape without its `\`: the byte, and the text after it.
fn read_escape(text: &[u8]) -> Option<(u8, &[u8])>
    ensures byte { IfSome result (λ read.
        bytes_from Behind text.now ≡ with_bytes (read.0 ∷ []) (bytes_from Among read.1.now)) }
    ensures none { IfNone result (bytes_from Behind text.now ≡ None) }
    ensures shorter { IfSome result (λ read. length read.1.now < length text.now) }
{
    match text {
        [b't', rest @ ..] => Some((b'\t', rest)),
        [b'n', rest @ ..] => Some((b'\n', rest)),
        [b'r', rest @ ..] => Some((b'\r', rest)),
        [b'\\', rest @ ..] => Some((b'\\', rest)),
        [b'x', high, low, rest @ ..] => Some((hex_digit(*high)? * 16 + hex_digit(*low)?, rest)),
        _ => None,
    }
}

fn hex_digit(byte: u8) -> Option<u8>
    ensures value { result ≡ hex_value byte }
    ensures small { IfSome result (λ digit. digit < 16) }
{
    match byte {
        b'0'..=b'9' => Some(byte - b'0'),
        b'a'..=b'f' => Some(byte - b'a' + 10),
        b'A'..=b'F' => Some(byte - b'A' + 10),
        _ => None,
    }
}

//! Reads and prints bytes as text, in which a byte may be `\r`, `\n`, `\t` or `\xHH`.
use crate::fault::{HttpDriverFault, NO_BYTE, NO_DEVICE};
use std::alloc::Global;
use std::fmt;
use test_support::Out;

/// Returns the bytes that a text denotes.
pub fn unescaped(alloc: Global, text: &str) -> Result<Vec<u8>, HttpDriverFault> {
    let mut bytes = Vec::new(alloc);
    push_parts(&mut bytes, text)?;
    Ok(bytes)
}

fn push_parts(bytes: &mut Vec<u8>, text: &str) -> Result<(), HttpDriverFault> {
    let mut parts = text.split('\\');
    if let Some(plain) = parts.next() {
        bytes.extend_from_slice(plain.as_bytes())?;
    }
    for part in parts {
        push_part(bytes, part.as_bytes())?;
    }
    Ok(())
}

// Appends the byte that follows a backslash, and the rest.
fn push_part(bytes: &mut Vec<u8>, part: &[u8]) -> Result<(), HttpDriverFault> {
    let (byte, plain) = front_of(part)?;
    bytes.extend_from_slice(&[byte])?;
    Ok(bytes.extend_from_slice(plain)?)
}

// Returns the byte that follows a backslash, and the rest.
fn front_of(part: &[u8]) -> Result<(u8, &[u8]), HttpDriverFault> {
    match part {
        [b'r', rest @ ..] => Ok((b'\r', rest)),
        [b'n', rest @ ..] => Ok((b'\n', rest)),
        [b't', rest @ ..] => Ok((b'\t', rest)),
        [b'x', high, low, rest @ ..] => Ok((byte_of(*high, *low)?, rest)),
        _ => Err(NO_BYTE),
    }
}

fn byte_of(high: u8, low: u8) -> Result<u8, HttpDriverFault> {
    match (digit_of(high), digit_of(low)) {
        (Some(high), Some(low)) => Ok(high << 4 | low),
        _ => Err(NO_BYTE),
    }
}

fn digit_of(byte: u8) -> Option<u8> {
    match byte {
        b'0'..=b'9' => Some(byte - b'0'),
        b'a'..=b'f' => Some(byte - b'a' + 10),
        _ => None,
    }
}

/// Bytes that print as such a text.
#[derive(Clone, Copy)]
pub struct Escaped<'a>(pub &'a [u8]);

impl fmt::Display for Escaped<'_> {
    fn fmt<W: fmt::Write>(&self, f: &mut fmt::Formatter<W>) -> fmt::Result {
        for byte in self.0 {
            write_byte(f, *byte)?;
        }
        Ok(())
    }
}

fn write_byte<W: fmt::Write>(f: &mut fmt::Formatter<W>, byte: u8) -> fmt::Result {
    match byte {
        b'\r' => f.write_str("\\r"),
        b'\n' => f.write_str("\\n"),
        b'\t' => f.write_str("\\t"),
        b' '..=b'[' | b']'..=b'~' => f.write_char(char::from(byte)),
        _ => write!(f, "\\x{byte:02x}"),
    }
}

/// Prints bytes, and ends the line.
pub fn print_escaped(out: &mut Out<'_>, bytes: &[u8]) {
    out.print(Escaped(bytes));
    out.print("\n");
}

/// Returns an error if a print has failed.
pub fn finish(out: &Out<'_>) -> Result<(), HttpDriverFault> {
    if out.has_failed() {
        return Err(NO_DEVICE);
    }
    Ok(())
}

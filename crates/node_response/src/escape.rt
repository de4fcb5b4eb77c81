//! Writes bytes, and texts escaped for HTML pages.
ghost use Rattle.std.specs.Prelude.{◌≡◌, ◌++◌, OnOk};
ghost use Rattle.node_response.specs.Escapes.{escape_byte, escaped, escaped_bytes, shown_byte};

use crate::utf8::in_utf8;
use std::alloc::AllocError;

/// Writes the bytes of a text.
pub fn put(out: &mut Vec<u8>, text: &[u8]) -> Result<(), AllocError>
    ensures { OnOk result (out.new.items ≡ out.old.items ++ text.now) }
{
    Ok(out.extend_from_slice(text)?)
}

// Returns a byte as a page shows it. A control character would be an error of the page's syntax.
fn shown_byte(byte: u8) -> u8
    ensures { result ≡ shown_byte byte }
{
    if byte < 32 || byte == 127 { b' ' } else { byte }
}

fn put_escaped_byte(out: &mut Vec<u8>, byte: u8) -> Result<(), AllocError>
    ensures { OnOk result (out.new.items ≡ out.old.items ++ escape_byte byte) }
{
    match byte {
        b'<' => put(out, b"&lt;"),
        b'>' => put(out, b"&gt;"),
        b'"' => put(out, b"&quot;"),
        b'\'' => put(out, b"&#39;"),
        b'&' => put(out, b"&amp;"),
        _ => Ok(out.push(shown_byte(byte))?),
    }
}

fn put_escaped_bytes(out: &mut Vec<u8>, text: &[u8]) -> Result<(), AllocError>
    ensures { OnOk result (out.new.items ≡ out.old.items ++ escaped_bytes text.now) }
{
    for byte in text {
        put_escaped_byte(out, *byte)?;
    }
    Ok(())
}

/// Writes a text escaped for an HTML page, as text or as an attribute's value (WHATWG HTML, section 13.1.4). A space
/// replaces each control character. A text that is not UTF-8 is taken for Windows-1252.
pub(crate) fn put_escaped(out: &mut Vec<u8>, text: &[u8]) -> Result<(), AllocError>
    ensures { OnOk result (out.new.items ≡ out.old.items ++ escaped text.now) }
{
    let shown = in_utf8(*out.allocator(), text)?;
    put_escaped_bytes(out, &shown)
}

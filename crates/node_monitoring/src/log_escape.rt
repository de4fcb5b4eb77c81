//! Writes bytes, and texts of clients escaped for a pair of quotes.
ghost use Rattle.std.specs.Prelude.{◌≡◌, ◌≤◌, ◌++◌, OnOk, length, take};
ghost use Rattle.node_monitoring.specs.LogEscapes.{escape_byte, escaped, is_plain};

use feed_bytes::hex_digit;
use std::alloc::AllocError;

/// Writes the bytes of a text.
pub(crate) fn put(out: &mut Vec<u8>, text: &[u8]) -> Result<(), AllocError>
    ensures { OnOk result (out.new.items ≡ out.old.items ++ text.now) }
{
    Ok(out.extend_from_slice(text)?)
}

fn is_plain(byte: u8) -> bool
    ensures { result ≡ is_plain byte }
{
    32 <= byte && byte <= 126 && byte != 34 && byte != 92
}

fn put_escaped_byte(out: &mut Vec<u8>, byte: u8) -> Result<(), AllocError>
    ensures { OnOk result (out.new.items ≡ out.old.items ++ escape_byte byte) }
{
    if is_plain(byte) {
        Ok(out.push(byte)?)
    } else {
        let high = hex_digit(b'A', byte / 16);
        let low = hex_digit(b'A', byte % 16);
        put(out, &[b'\\', b'x', high, low])
    }
}

// Returns the length of the plain text at the front.
fn plain_len(text: &[u8]) -> usize
    ensures within { result ≤ length text.now }
    ensures plain { escaped (take result text.now) ≡ take result text.now }
{
    let mut count = 0;
    for byte in text {
        if !is_plain(*byte) {
            return count;
        }
        count += 1;
    }
    count
}

fn put_each_escaped(out: &mut Vec<u8>, text: &[u8]) -> Result<(), AllocError>
    ensures { OnOk result (out.new.items ≡ out.old.items ++ escaped text.now) }
{
    for byte in text {
        put_escaped_byte(out, *byte)?;
    }
    Ok(())
}

/// Writes a text in which `"`, `\` and each byte that is not visible ASCII or a space is `\xHH`. Most texts are plain,
/// so the plain bytes at the front are copied at once.
pub(crate) fn put_escaped(out: &mut Vec<u8>, text: &[u8]) -> Result<(), AllocError>
    ensures { OnOk result (out.new.items ≡ out.old.items ++ escaped text.now) }
{
    let (plain, rest) = text.split_at(plain_len(text));
    put(out, plain)?;
    put_each_escaped(out, rest)
}

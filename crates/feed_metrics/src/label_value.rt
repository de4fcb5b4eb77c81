//! Writes the value of a label, and a time.
ghost use Rattle.std.specs.Prelude.{◌≡◌, ◌++◌, OnOk};
ghost use Rattle.feed_metrics.specs.Labels.{label_byte, label_text};
ghost use Rattle.feed_metrics.specs.Seconds.{digit, seconds_text, six_digits};

use feed_bytes::put_number;
use std::alloc::AllocError;

pub(crate) fn put(out: &mut Vec<u8>, text: &[u8]) -> Result<(), AllocError>
    ensures { OnOk result (out.new.items ≡ out.old.items ++ text.now) }
{
    Ok(out.extend_from_slice(text)?)
}

fn put_label_byte(out: &mut Vec<u8>, byte: u8) -> Result<(), AllocError>
    ensures { OnOk result (out.new.items ≡ out.old.items ++ label_byte byte) }
{
    match byte {
        b'\\' => put(out, b"\\\\"),
        b'"' => put(out, b"\\\""),
        b'\n' => put(out, b"\\n"),
        _ => Ok(out.push(byte)?),
    }
}

/// Writes the value of a label: `\`, `"` and the end of a line are escaped.
pub fn put_label(out: &mut Vec<u8>, text: &[u8]) -> Result<(), AllocError>
    ensures { OnOk result (out.new.items ≡ out.old.items ++ label_text text.now) }
{
    for byte in text {
        put_label_byte(out, *byte)?;
    }
    Ok(())
}

fn digit(number: u64) -> u8
    ensures { result ≡ digit number }
{
    b'0' + (number % 10) as u8
}

fn put_six_digits(out: &mut Vec<u8>, number: u64) -> Result<(), AllocError>
    ensures { OnOk result (out.new.items ≡ out.old.items ++ six_digits number) }
{
    put(
        out,
        &[
            digit(number / 100_000),
            digit(number / 10_000),
            digit(number / 1_000),
            digit(number / 100),
            digit(number / 10),
            digit(number),
        ],
    )
}

/// Writes a time of microseconds as seconds.
pub fn put_seconds(out: &mut Vec<u8>, micros: u64) -> Result<(), AllocError>
    ensures { OnOk result (out.new.items ≡ out.old.items ++ seconds_text micros) }
{
    put_number(out, micros / 1_000_000)?;
    put(out, b".")?;
    put_six_digits(out, micros)
}

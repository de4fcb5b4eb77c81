//! Writes the character data of an element: escaped, and with U+FFFD for each character that XML 1.0 does not have.
ghost use Rattle.std.specs.Prelude.{◌≡◌, ◌++◌, OnOk};
ghost use Rattle.std.specs.List.{flat_map};
ghost use Rattle.feed_xml.specs.Characters.{allowed_byte, is_control, is_last, place_after, text_marks};
ghost use Rattle.feed_xml.specs.Marks.{escape_byte, xml_text};

use std::alloc::AllocError;

/// The bytes before a byte, as far as they begin U+FFFE or U+FFFF, which are EF BF BE and EF BF BF in UTF-8.
#[derive(Clone, Copy)]
pub(crate) enum Place {
    /// Neither of the two begins here.
    Outside,
    /// After EF.
    First,
    /// After EF BF.
    Second,
}

/// Writes the bytes of a text.
pub(crate) fn put(out: &mut Vec<u8>, text: &[u8]) -> Result<(), AllocError>
    ensures { OnOk result (out.new.items ≡ out.old.items ++ text.now) }
{
    Ok(out.extend_from_slice(text)?)
}

fn is_control(byte: u8) -> bool
    ensures { result ≡ is_control byte }
{
    byte < 32 && byte != 9 && byte != 10 && byte != 13
}

fn is_last(place: Place, byte: u8) -> bool
    ensures { result ≡ is_last place byte }
{
    match place {
        Place::Second => byte == 190 || byte == 191,
        Place::Outside | Place::First => false,
    }
}

fn place_after(place: Place, byte: u8) -> Place
    ensures { result ≡ place_after place byte }
{
    match place {
        Place::First if byte == 191 => Place::Second,
        _ if byte == 239 => Place::First,
        _ => Place::Outside,
    }
}

fn put_escaped_byte(out: &mut Vec<u8>, byte: u8) -> Result<(), AllocError>
    ensures { OnOk result (out.new.items ≡ out.old.items ++ escape_byte byte) }
{
    match byte {
        b'<' => put(out, b"&lt;"),
        b'>' => put(out, b"&gt;"),
        b'&' => put(out, b"&amp;"),
        b'"' => put(out, b"&quot;"),
        b'\'' => put(out, b"&apos;"),
        b'\r' => put(out, b"&#13;"),
        _ => Ok(out.push(byte)?),
    }
}

fn put_allowed_byte(out: &mut Vec<u8>, place: Place, byte: u8) -> Result<(), AllocError>
    ensures { OnOk result (out.new.items ≡ out.old.items ++ flat_map escape_byte (allowed_byte place byte)) }
{
    if is_control(byte) {
        put(out, &[239, 191, 189])
    } else if is_last(place, byte) {
        put(out, &[189])
    } else {
        put_escaped_byte(out, byte)
    }
}

/// Writes a text as character data.
pub fn put_text(out: &mut Vec<u8>, text: &[u8]) -> Result<(), AllocError>
    ensures { OnOk result (out.new.items ≡ out.old.items ++ xml_text (text_marks text.now)) }
{
    let mut place = Place::Outside;
    for byte in text {
        put_allowed_byte(out, place, *byte)?;
        place = place_after(place, *byte);
    }
    Ok(())
}

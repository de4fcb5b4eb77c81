//! Writes JSON: strings (RFC 8259, section 7), and the punctuation of a list.
ghost use Rattle.std.specs.Prelude.{◌≡◌, ◌++◌, ◌∷◌, [], OnOk, codes};
ghost use Rattle.std.specs.List.{flat_map};
ghost use Rattle.node_response.specs.JsonStrings.{json_byte, json_string};
ghost use Rattle.node_response.specs.JsonLists.{comma_before};

use crate::escape::put;
use feed_bytes::hex_digit;
use std::alloc::AllocError;

fn put_json_byte(out: &mut Vec<u8>, byte: u8) -> Result<(), AllocError>
    ensures { OnOk result (out.new.items ≡ out.old.items ++ json_byte byte) }
{
    if byte == 34 {
        put(out, &[92, 34])
    } else if byte == 92 {
        put(out, &[92, 92])
    } else if byte < 32 {
        let high = hex_digit(b'a', byte / 16);
        let low = hex_digit(b'a', byte % 16);
        put(out, &[92, 117, 48, 48, high, low])
    } else {
        Ok(out.push(byte)?)
    }
}

fn put_json_bytes(out: &mut Vec<u8>, text: &[u8]) -> Result<(), AllocError>
    ensures { OnOk result (out.new.items ≡ out.old.items ++ flat_map json_byte text.now) }
{
    for byte in text {
        put_json_byte(out, *byte)?;
    }
    Ok(())
}

/// Writes a text as a string of JSON.
#[tactic(auto, unfolding(crate::specs::JsonStrings::json_string))]
pub(crate) fn put_json_string(out: &mut Vec<u8>, text: &[u8]) -> Result<(), AllocError>
    ensures { OnOk result (out.new.items ≡ out.old.items ++ json_string text.now) }
{
    put(out, b"\"")?;
    put_json_bytes(out, text)?;
    put(out, b"\"")
}

/// Writes what begins a list.
pub fn put_list_start(out: &mut Vec<u8>) -> Result<(), AllocError>
    ensures { OnOk result (out.new.items ≡ out.old.items ++ codes "[") }
{
    put(out, b"[")
}

/// Writes what separates the item at a place of a list from what comes before it.
pub fn put_comma(out: &mut Vec<u8>, place: usize) -> Result<(), AllocError>
    ensures { OnOk result (out.new.items ≡ out.old.items ++ comma_before place) }
{
    if place == 0 {
        put(out, b"\n")
    } else {
        put(out, b",\n")
    }
}

/// Writes what ends a list.
pub fn put_list_end(out: &mut Vec<u8>) -> Result<(), AllocError>
    ensures { OnOk result (out.new.items ≡ out.old.items ++ codes "\n]\n") }
{
    put(out, b"\n]\n")
}

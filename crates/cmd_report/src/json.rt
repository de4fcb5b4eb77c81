//! The parts of JSON that `write!` does not know: quoted texts, and the commas in a list or an object.
use std::alloc::Global;
use std::io::{ErrorKind, Write};
use std::{io, str};

/// The commas of one list or object.
#[derive(Clone, Copy)]
pub struct Commas {
    next: &'static str,
}

impl Commas {
    /// Returns the commas of a list or an object that has no item yet.
    pub fn new() -> Commas {
        Commas { next: "" }
    }

    /// Writes what comes before the next item: nothing before the first, a comma before each other.
    pub fn write<O: Write>(&mut self, out: &mut O) -> io::Result<()> {
        out.write_all(self.next.as_bytes())?;
        self.next = ",";
        Ok(())
    }
}

/// Writes a text as a JSON string, with each control character escaped: those below U+0020, which JSON requires, and
/// U+007F to U+009F, which a terminal may obey.
pub fn write_text<O: Write>(alloc: Global, out: &mut O, text: &[u8]) -> io::Result<()> {
    let text = str::from_utf8(text).unwrap_or("");
    match serde_json::to_vec(alloc, &text) {
        Ok(quoted) => write_escaped(alloc, out, &quoted),
        Err(_) => Err(io::Error::from(ErrorKind::OutOfMemory)),
    }
}

// The byte that begins U+0080 to U+00BF in UTF-8.
const LEAD: u8 = 0xC2;

const DELETE: u8 = 0x7F;

// Writes a JSON string with U+007F to U+009F escaped. Most texts have none of them.
fn write_escaped<O: Write>(alloc: Global, out: &mut O, quoted: &[u8]) -> io::Result<()> {
    if !quoted.iter().any(|byte| *byte == LEAD || *byte == DELETE) {
        return out.write_all(quoted);
    }
    let mut escaped = Vec::new(alloc);
    let mut is_behind_lead = false;
    for byte in quoted {
        if *byte == LEAD {
            is_behind_lead = true;
            continue;
        }
        put_byte(&mut escaped, is_behind_lead, *byte)?;
        is_behind_lead = false;
    }
    out.write_all(&escaped)
}

// Appends a byte of UTF-8 that is not the lead, with the lead if it follows one, or the escape of both.
fn put_byte(out: &mut Vec<u8>, is_behind_lead: bool, byte: u8) -> io::Result<()> {
    if byte == DELETE || (is_behind_lead && byte < 0xA0) {
        return write!(out, "\\u{:04x}", u32::from(byte));
    }
    if is_behind_lead {
        out.push(LEAD)?;
    }
    out.push(byte)?;
    Ok(())
}

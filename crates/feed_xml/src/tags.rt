//! Writes tags, and elements that have a text or a number alone.
ghost use Rattle.std.specs.Prelude.{◌≡◌, ◌++◌, OnOk};
ghost use Rattle.feed_xml.specs.Elements.{leaf, number_leaf};
ghost use Rattle.feed_xml.specs.Marks.{closed, mark_text, opened, xml_text};

use crate::characters::{put, put_text};
use feed_bytes::put_number;
use std::alloc::AllocError;

/// The XML declaration, which comes before the root element.
pub const DECLARATION: &[u8] = b"<?xml version=\"1.0\" encoding=\"UTF-8\"?>\n";

/// Writes a start tag, by the text between `<` and `>`.
pub fn put_opened(out: &mut Vec<u8>, tag: &[u8]) -> Result<(), AllocError>
    ensures { OnOk result (out.new.items ≡ out.old.items ++ mark_text (opened tag.now)) }
{
    put(out, b"<")?;
    put(out, tag)?;
    put(out, b">")
}

/// Writes an end tag.
pub fn put_closed(out: &mut Vec<u8>, name: &[u8]) -> Result<(), AllocError>
    ensures { OnOk result (out.new.items ≡ out.old.items ++ mark_text (closed name.now)) }
{
    put(out, b"</")?;
    put(out, name)?;
    put(out, b">")
}

/// Writes an element with a text alone.
pub fn put_leaf(out: &mut Vec<u8>, name: &[u8], text: &[u8]) -> Result<(), AllocError>
    ensures { OnOk result (out.new.items ≡ out.old.items ++ xml_text (leaf name.now text.now)) }
{
    put_opened(out, name)?;
    put_text(out, text)?;
    put_closed(out, name)
}

/// Writes an element with a number alone.
pub fn put_number_leaf(out: &mut Vec<u8>, name: &[u8], number: u64) -> Result<(), AllocError>
    ensures { OnOk result (out.new.items ≡ out.old.items ++ xml_text (number_leaf name.now number)) }
{
    put_opened(out, name)?;
    put_number(out, number)?;
    put_closed(out, name)
}

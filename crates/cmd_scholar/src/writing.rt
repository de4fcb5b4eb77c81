//! Writes the export: its beginning, the items of lists, and its end.
ghost use Rattle.std.specs.Prelude.{◌≡◌, ◌++◌, OnOk};
ghost use Rattle.std.specs.Io.KnownBytes.{Appends};
ghost use Rattle.std.specs.List.{flat_map};
ghost use Rattle.cmd_scholar.specs.Items.{end_text, item_text, start_text};

use crate::item::put_item;
use crate::names::HOLDINGS;
use feed_kbart::Row;
use feed_xml::{DECLARATION, put_closed, put_opened};
use std::alloc::{AllocError, Global};
use std::io;
use std::io::Write;

#[tactic(auto, unfolding(crate::specs::Items::start_text))]
fn put_start(out: &mut Vec<u8>) -> Result<(), AllocError>
    ensures { OnOk result (out.new.items ≡ out.old.items ++ start_text) }
{
    out.extend_from_slice(DECLARATION)?;
    put_opened(out, HOLDINGS)?;
    Ok(out.push(b'\n')?)
}

#[tactic(auto, unfolding(crate::specs::Items::end_text))]
fn put_end(out: &mut Vec<u8>) -> Result<(), AllocError>
    ensures { OnOk result (out.new.items ≡ out.old.items ++ end_text) }
{
    put_closed(out, HOLDINGS)?;
    Ok(out.push(b'\n')?)
}

/// Writes the beginning of the export: the declaration, and the start tag of the root element.
pub fn write_start<W: Write>(alloc: Global, out: &mut W) -> io::Result<()>
    ensures { OnOk result (Appends (W.contents out.old) (W.contents out.new) start_text) }
{
    let mut text = Vec::new(alloc);
    put_start(&mut text)?;
    out.write_all(&text)
}

fn write_item<W: Write>(alloc: Global, out: &mut W, row: &Row) -> io::Result<()>
    ensures { OnOk result (Appends (W.contents out.old) (W.contents out.new) (item_text row.now)) }
{
    let mut text = Vec::new(alloc);
    put_item(&mut text, row)?;
    out.write_all(&text)
}

/// Writes the items of rows. Takes memory for one item at a time.
pub fn write_items<W: Write>(alloc: Global, out: &mut W, rows: &[Row]) -> io::Result<()>
    ensures { OnOk result (Appends (W.contents out.old) (W.contents out.new) (flat_map item_text rows.now)) }
{
    for row in rows {
        write_item(alloc, out, row)?;
    }
    Ok(())
}

/// Writes the end of the export: the end tag of the root element.
pub fn write_end<W: Write>(alloc: Global, out: &mut W) -> io::Result<()>
    ensures { OnOk result (Appends (W.contents out.old) (W.contents out.new) end_text) }
{
    let mut text = Vec::new(alloc);
    put_end(&mut text)?;
    out.write_all(&text)
}

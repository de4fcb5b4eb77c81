//! The rows of a holdings file as they are read: their entries, and the first of their faults.
ghost use Rattle.std.specs.Prelude.{◌≡◌, ◌≤◌, ◌<◌, ◌+◌, ◌++◌, IfErr, OnOk, length};
ghost use Rattle.node_site.specs.HoldingsEntries.{entries_at};
ghost use Rattle.node_site.specs.HoldingsFaults.{first_fault};
ghost use Rattle.node_site.specs.HoldingsFiles.{has_bytes};
ghost use Rattle.node_site.specs.HoldingsIndex.{IsFirstFault, IsHeadFault, IsHeaded, places_behind, places_from};
ghost use Rattle.node_site.specs.Limits.{holdings_limit};

use crate::cells::{Cells, at_line, has_header, line_at, line_fault};
use crate::entry::Entry;
use crate::fault::ValueFault;
use crate::holdings_fault::HoldingsFault;

/// The most bytes of a holdings file: 16 MiB.
pub const HOLDINGS_LIMIT: usize = 16_777_216;

/// Returns whether a line or a file has bytes.
pub(crate) fn has_bytes(line: &[u8]) -> bool
    ensures { result ≡ has_bytes line.now }
{
    !line.is_empty()
}

// Adds the entry of the row that begins at a place, unless the line is empty.
#[tactic(auto, using(crate::proofs::HoldingsRows::row_rules))]
fn add_row(text: &[u8], place: usize, entries: &mut Vec<Entry>) -> Result<(), HoldingsFault>
    requires short { length text.now ≤ holdings_limit }
    requires within { place ≤ length text.now }
    ensures added { OnOk result (entries.old.items ++ entries_at text.now (places_from text.now place)
        ≡ entries.new.items ++ entries_at text.now (places_behind text.now place)) }
    ensures fine { OnOk result (first_fault text.now (places_from text.now place)
        ≡ first_fault text.now (places_behind text.now place)) }
    ensures refused { IfErr result (IsFirstFault text.now (places_from text.now place)) }
{
    let line = line_at(text, place);
    if !has_bytes(line) {
        return Ok(());
    }
    let cells = Cells::of(line);
    if let Some(fault) = line_fault(text, place, line, &cells) {
        return Err(HoldingsFault::Line(fault));
    }
    match entries.push(Entry::of(text, place, &cells)) {
        Ok(()) => Ok(()),
        Err(_) => Err(HoldingsFault::Memory),
    }
}

// Adds the entry of the row that begins behind a place, if a line ends there.
#[tactic(auto, using(crate::proofs::HoldingsRows::behind_other, crate::proofs::HoldingsRows::behind_feed))]
fn add_next(text: &[u8], place: usize, entries: &mut Vec<Entry>) -> Result<(), HoldingsFault>
    requires short { length text.now ≤ holdings_limit }
    requires within { place < length text.now }
    ensures added { OnOk result (entries.old.items ++ entries_at text.now (places_behind text.now place)
        ≡ entries.new.items ++ entries_at text.now (places_behind text.now (place + 1))) }
    ensures fine { OnOk result (first_fault text.now (places_behind text.now place)
        ≡ first_fault text.now (places_behind text.now (place + 1))) }
    ensures refused { IfErr result (IsFirstFault text.now (places_behind text.now place)) }
{
    if text[place] != b'\n' {
        return Ok(());
    }
    add_row(text, place + 1, entries)
}

/// Adds the entries of the rows that begin behind some places, from a first one up to another.
pub(crate) fn add_rows(
    text: &[u8],
    from: usize,
    to: usize,
    entries: &mut Vec<Entry>,
) -> Result<(), HoldingsFault>
    requires short { length text.now ≤ holdings_limit }
    requires forward { from ≤ to }
    requires within { to ≤ length text.now }
    ensures added { OnOk result (entries.old.items ++ entries_at text.now (places_behind text.now from)
        ≡ entries.new.items ++ entries_at text.now (places_behind text.now to)) }
    ensures fine { OnOk result (first_fault text.now (places_behind text.now from)
        ≡ first_fault text.now (places_behind text.now to)) }
    ensures refused { IfErr result (IsFirstFault text.now (places_behind text.now from)) }
{
    for place in from..to {
        if let Err(fault) = add_next(text, place, entries) {
            return Err(fault);
        }
    }
    Ok(())
}

/// Checks the length of a text, whether it is UTF-8, and its header.
pub(crate) fn check_text(text: &[u8]) -> Result<(), HoldingsFault>
    ensures fine { OnOk result (IsHeaded text.now) }
    ensures refused { IfErr result (IsHeadFault text.now) }
{
    if text.len() > HOLDINGS_LIMIT {
        return Err(HoldingsFault::TooLong);
    }
    if let Err(_) = simdutf8::basic::from_utf8(text) {
        return Err(HoldingsFault::NotUtf8);
    }
    if has_header(text) {
        Ok(())
    } else {
        Err(HoldingsFault::Line(at_line(text, 0, ValueFault::Header)))
    }
}

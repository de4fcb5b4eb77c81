//! The packages of which a row of the holdings file switches a title on.
ghost use Rattle.std.specs.Prelude.{◌≡◌, ◌≤◌, ◌&&◌, ◌||◌, List, ℕ, OnOk, is_some, length};
ghost use Rattle.node_site.specs.HoldingsFiles.{has_bytes, holding_in};
ghost use Rattle.node_site.specs.HoldingsIndex.{AreOnBelow, is_on_entry};
ghost use Rattle.node_site.specs.Indexes.{place_at};

use crate::cells::{Cells, line_at};
use crate::entry::Entry;
use crate::holdings_rows::has_bytes;
use crate::places::Places;
use std::alloc::{AllocError, Global};

// Returns whether the cells say that the library has a title.
fn is_on(cells: &Cells<'_>) -> bool
    ensures { result ≡ (has_bytes cells.now.id && (holding_in cells.now).is_held) }
{
    let (_, id) = cells.subject();
    has_bytes(id) && cells.holding().is_held
}

// Gives the package of an entry a place if its row switches a title on.
fn put_entry(
    alloc: Global,
    text: &[u8],
    entry: Entry,
    places: &mut Places,
) -> Result<(), AllocError>
    ensures { OnOk result ((id : List ℕ) → is_some (place_at id places.new)
        ≡ (is_some (place_at id places.old) || is_on_entry text.now id entry)) }
{
    let cells = Cells::of(line_at(text, entry.start as usize));
    if is_on(&cells) {
        let (package_id, _) = cells.subject();
        places.put(alloc, package_id, entry.start as usize)
    } else {
        Ok(())
    }
}

/// Gives the packages of the entries from one up to another a place whose rows switch a title on.
pub(crate) fn put_entries(
    alloc: Global,
    text: &[u8],
    entries: &[Entry],
    from: usize,
    to: usize,
    places: &mut Places,
) -> Result<(), AllocError>
    requires forward { from ≤ to }
    requires within { to ≤ length entries.now }
    requires on { AreOnBelow text.now entries.now from places.old }
    ensures { OnOk result (AreOnBelow text.now entries.now to places.new) }
{
    for index in from..to {
        put_entry(alloc, text, entries[index], places)?;
    }
    Ok(())
}

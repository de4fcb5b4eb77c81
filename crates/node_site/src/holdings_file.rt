//! The holdings file of a library, and what it says of a package or a title.
ghost use Rattle.std.specs.Prelude.{◌≡◌, is_some, option_map};
ghost use Rattle.std.specs.List.{find};
ghost use Rattle.node_site.specs.Held.{is_on_listed, title_holding};
ghost use Rattle.node_site.specs.HoldingsEntries.{hash_of, key_at, key_cmp};
ghost use Rattle.node_site.specs.HoldingsFiles.{cells_of, holding_in, line_at, rows_of};
ghost use Rattle.node_site.specs.HoldingsIndex.{IsIndexed};

use crate::cells::{Cells, line_at};
use crate::entry::{Entry, hash_of};
use crate::holding::Holding;
use crate::places::Places;
use std::cmp::Ordering;
use std::marker::Model;

/// A holdings file: its text, an entry for each row, in the order of their keys, and a place for each package of which
/// a row switches a title on.
#[derive(Drop)]
pub struct HoldingsFile {
    pub(crate) text: Vec<u8>,
    pub(crate) entries: Vec<Entry>,
    pub(crate) on: Places,
}

impl Model for HoldingsFile {
    ghost use Rattle.std.specs.Prelude.{List, ℕ};
    ghost use Rattle.node_site.specs.HoldingsIndex.{AreOnListed, IsIndexed};

    ghost Value = { List ℕ };

    ghost view = { λ h. h.text.items };

    ghost invariant = { λ h. IsIndexed h.text.items h.entries.items × AreOnListed h.text.items h.on };
}

// Returns where a row about a title begins, or about the whole package without one.
fn row_about(text: &[u8], entries: &[Entry], package_id: &[u8], id: &[u8]) -> Option<usize>
    requires { IsIndexed text.now entries.now }
    ensures { option_map (λ start. holding_in (cells_of (line_at text.now start))) result
        ≡ title_holding package_id.now id.now (rows_of text.now) }
{
    let hash = hash_of(package_id, id);
    let found = entries.binary_search_by(
        |entry: &Entry| -> Ordering
            ensures { result ≡ key_cmp (key_at text.entry.now entry.now) (hash, (package_id.entry.now, id.entry.now)) }
        { entry.compare(text, hash, package_id, id) },
    );
    match found {
        Ok(index) => Some(entries[index].start as usize),
        Err(_) => None,
    }
}

impl HoldingsFile {
    /// Returns the bytes of the file.
    pub(crate) fn text(&self) -> &[u8]
        ensures { result.now ≡ self.now }
    {
        &self.text
    }

    /// Returns what the file says of a title of a package, or without one of the whole package.
    pub(crate) fn holding(&self, package_id: &[u8], id: &[u8]) -> Option<Holding>
        ensures { result ≡ title_holding package_id.now id.now (rows_of self.now) }
    {
        match row_about(&self.text, &self.entries, package_id, id) {
            Some(start) => Some(Cells::of(line_at(&self.text, start)).holding()),
            None => None,
        }
    }

    /// Returns whether a row says that the library has a title of a package.
    pub(crate) fn has_on(&self, package_id: &[u8]) -> bool
        ensures { result ≡ is_some (find (is_on_listed package_id.now) (rows_of self.now)) }
    {
        self.on.get(package_id).is_some()
    }
}

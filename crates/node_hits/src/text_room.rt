//! The room for the texts of the hits of a release: a list with long texts has no more of a response than others.
ghost use Rattle.std.specs.Prelude.{◌≡◌, true};
ghost use Rattle.std.specs.Bool.{OnFalse, OnTrue};
ghost use Rattle.node_hits.specs.Looks.{text_looks};

use feed_kbart::Row;

// A hit counts for so many bytes of each of its texts, since a search may read them all.
const LOOK_SIZE: usize = 250;

/// The rest of a release's share of texts, and whether the share was enough for each hit so far.
#[derive(Drop)]
pub(crate) struct TextRoom {
    pub(crate) left: usize,
    pub(crate) is_enough: bool,
}

/// Returns what the texts of a row count as.
pub(crate) fn text_looks(row: &Row) -> usize
    ensures { result ≡ text_looks row.now }
{
    let cells = row.cells();
    cells.publication_title.len() / LOOK_SIZE
        + cells.title_url.len() / LOOK_SIZE
        + cells.title_id.len() / LOOK_SIZE
        + cells.coverage_depth.len() / LOOK_SIZE
        + cells.embargo_info.len() / LOOK_SIZE
        + cells.access_type.len() / LOOK_SIZE
}

impl TextRoom {
    ghost use Rattle.std.specs.Prelude.{◌≤◌, ◌<◌, ◌-◌, false};

    /// Returns the room of a share.
    pub(crate) fn new(texts: usize) -> TextRoom
        ensures left { result.left ≡ texts }
        ensures enough { result.is_enough ≡ true }
    {
        TextRoom {
            left: texts,
            is_enough: true,
        }
    }

    /// Takes the room that the texts of a hit need. Returns whether there was enough.
    pub(crate) fn take(&mut self, looks: usize) -> bool
        ensures some { OnTrue result (looks ≤ self.old.left) }
        ensures left { OnTrue result (self.new.left ≡ self.old.left - looks) }
        ensures enough { OnTrue result (self.new.is_enough ≡ self.old.is_enough) }
        ensures none { OnFalse result (self.old.left < looks) }
        ensures kept { OnFalse result (self.new.left ≡ self.old.left) }
        ensures lacking { OnFalse result (self.new.is_enough ≡ false) }
    {
        if looks <= self.left {
            self.left -= looks;
            true
        } else {
            self.is_enough = false;
            false
        }
    }
}

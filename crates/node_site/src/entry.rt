//! The entries of the index of a holdings file, one for each row.
ghost use Rattle.std.specs.Prelude.{◌≡◌, ◌≤◌, ℕ, length, sum_by};
ghost use Rattle.node_site.specs.HoldingsEntries.{IsInOrder, entry_at, hash_after, hash_of, key_at, key_cmp};
ghost use Rattle.node_site.specs.HoldingsEntries.{subject_cmp};
ghost use Rattle.node_site.specs.HoldingsFiles.{cells_of, line_at};
ghost use Rattle.node_site.specs.Limits.{holdings_limit};

use crate::cells::{Cells, subject_at};
use std::cmp::Ordering;

/// The hash of the package and the title of a row, and where the row begins.
#[derive(Clone, Copy)]
pub(crate) struct Entry {
    pub(crate) hash: u32,
    pub(crate) start: u32,
}

fn hash_after(hash: u32, bytes: &[u8]) -> u32
    ensures { result ≡ hash_after hash bytes.now }
{
    let mut after = hash;
    for byte in bytes {
        after = ((after as u64 * 2_654_435_761 + *byte as u64) % 4_294_967_296) as u32;
    }
    after
}

/// Returns the hash of a package and a title.
#[tactic(auto, unfolding(crate::specs::HoldingsEntries::hash_of))]
pub(crate) fn hash_of(package_id: &[u8], id: &[u8]) -> u32
    ensures { result ≡ hash_of (package_id.now, id.now) }
{
    hash_after(hash_after(0, package_id), id)
}

// Compares packages by their bytes, and the titles of one package.
fn compare_subjects(one: (&[u8], &[u8]), other: (&[u8], &[u8])) -> Ordering
    ensures { result ≡ subject_cmp (one.entry.0.now, one.entry.1.now) (other.entry.0.now, other.entry.1.now) }
{
    one.0.cmp(&other.0).then(one.1.cmp(&other.1))
}

impl Entry {
    /// Returns the entry of the row that begins at a place and has these cells.
    pub(crate) fn of(text: &[u8], place: usize, cells: &Cells<'_>) -> Entry
        requires short { length text.now ≤ holdings_limit }
        requires within { place ≤ length text.now }
        requires cells { cells.now ≡ cells_of (line_at text.now place) }
        ensures { result ≡ entry_at text.now place }
    {
        let (package_id, id) = cells.subject();
        Entry {
            hash: hash_of(package_id, id),
            start: place as u32,
        }
    }

    /// Compares an entry with the hash of a package and a title, and then with these themselves.
    pub(crate) fn compare(self, text: &[u8], hash: u32, package_id: &[u8], id: &[u8]) -> Ordering
        ensures { result ≡ key_cmp (key_at text.now self) (hash, (package_id.now, id.now)) }
    {
        match self.hash.cmp(&hash) {
            Ordering::Less => Ordering::Less,
            Ordering::Equal => compare_subjects(
                subject_at(text, self.start as usize),
                (package_id, id),
            ),
            Ordering::Greater => Ordering::Greater,
        }
    }
}

/// Compares two entries.
pub(crate) fn compare(text: &[u8], one: Entry, other: Entry) -> Ordering
    ensures { result ≡ key_cmp (key_at text.now one) (key_at text.now other) }
{
    match one.hash.cmp(&other.hash) {
        Ordering::Less => Ordering::Less,
        Ordering::Equal => compare_subjects(
            subject_at(text, one.start as usize),
            subject_at(text, other.start as usize),
        ),
        Ordering::Greater => Ordering::Greater,
    }
}

/// Sorts entries. It takes no memory.
pub(crate) fn sort(text: &[u8], entries: &mut Vec<Entry>)
    ensures same { (weight : Entry → ℕ) → sum_by weight entries.new.items ≡ sum_by weight entries.old.items }
    ensures sorted { IsInOrder text.now entries.new.items }
{
    entries.sort_unstable_by(
        |one: &Entry, other: &Entry| -> Ordering
            ensures { result ≡ key_cmp (key_at text.entry.now one.now) (key_at text.entry.now other.now) }
        { compare(text, *one, *other) },
    );
}

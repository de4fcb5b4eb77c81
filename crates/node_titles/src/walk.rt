//! A walk over the rows of releases, which finds those whose titles contain a text.
ghost use Rattle.std.specs.Prelude.{◌≡◌, IfOk, OnOk, None, drop, fold, map};
ghost use Rattle.node_site.specs.Held.{library_has};
ghost use Rattle.node_titles.specs.Titles.{entry_of, folded, is_found, is_short};
ghost use Rattle.node_titles.specs.Walks.{bytes_after, rows_among, titles_from, walk_from, with_row};

use crate::folded::{contains, fold_case};
use feed_kbart::Row;
use feed_names::ReleaseName;
use feed_releases::ActiveRelease;
use memchr::memmem::Finder;
use node_site::{SiteFile, library_has};
use std::alloc::{AllocError, Global};
use std::marker::Model;

// The most rows that a walk looks at, so that no other reader waits long for it.
const LOOK_LIMIT: usize = 20_000;

// The most rows that a walk finds.
const FOUND_LIMIT: usize = 50;

// A walk ends once the texts of the rows that it looked at have this many bytes. So a turn of the node does bounded
// work, and a response stays small.
const TEXT_LIMIT: usize = 2_097_152;

// The most bytes of the texts of a row that is found. A title may have 256 MiB.
const ROW_LIMIT: usize = 65_536;

/// A row, and the name of the release that has it.
#[derive(Drop)]
pub struct ListedRow<'a> {
    name: &'a ReleaseName,
    row: &'a Row,
}

impl<'a> Model for ListedRow<'a> {
    ghost use Rattle.node_titles.specs.Titles.{EntryValue, entry_of};

    ghost Value = { EntryValue };

    ghost view = { λ e. entry_of e.name.now e.row.now };
}

impl<'a> ListedRow<'a> {
    /// Returns the name of the release.
    pub fn name(&self) -> &'a ReleaseName
        ensures { result.now ≡ self.now.name }
    {
        self.name
    }

    /// Returns the row.
    pub fn row(&self) -> &'a Row
        ensures { result.now ≡ self.now.row }
    {
        self.row
    }
}

/// A walk over rows: what it found, and where the next walk begins.
#[derive(Drop)]
pub struct Walk<'a> {
    start: u32,
    // How many more rows it looks at and finds, and how many more bytes of texts it looks at.
    looks: usize,
    room: usize,
    bytes: usize,
    found: Vec<ListedRow<'a>>,
    next: Option<usize>,
    // The title that was looked at last, without its case.
    title: Vec<u8>,
}

impl<'a> Model for Walk<'a> {
    ghost use Rattle.node_titles.specs.Walks.{WalkValue};

    ghost Value = { WalkValue };

    ghost view = { λ w. record {
      start = w.start;
      looks = w.looks;
      room = w.room;
      bytes = w.bytes;
      found = w.found.items;
      next = w.next;
    } };
}

// Returns whether the library has a row.
fn is_held(site: &SiteFile, name: &ReleaseName, row: &Row) -> bool
    ensures { result ≡ library_has site.now name.now.package_name row.now.title_id row.now.first_day row.now.last_day
        None }
{
    let cells = row.cells();
    let (first, last) = (cells.first_day(), cells.last_day());
    library_has(site, name.package(), cells.title_id, first, last, None)
}

// Returns whether a row is short enough to be found.
fn is_short(row: &Row) -> bool
    ensures { result ≡ is_short row.now }
{
    let cells = row.cells();
    let bytes = cells
        .publication_title
        .len()
        .saturating_add(cells.coverage_depth.len());
    bytes.saturating_add(cells.embargo_info.len()) <= ROW_LIMIT
}

// Tests the length first, so that a long title is neither folded nor searched.
#[tactic(auto, unfolding(crate::specs::Titles::is_found))]
fn is_found(
    site: &SiteFile,
    finder: &Finder<'_>,
    title: &mut Vec<u8>,
    name: &ReleaseName,
    row: &Row,
) -> Result<bool, AllocError>
    ensures { IfOk result (λ is. is ≡ is_found site.now finder.now (entry_of name.now row.now)) }
{
    if is_short(row) && contains(finder, title, row.title())? {
        Ok(is_held(site, name, row))
    } else {
        Ok(false)
    }
}

// Returns the bytes that are left after the texts of a row.
fn bytes_after(bytes: usize, row: &Row) -> usize
    ensures { result ≡ bytes_after bytes row.now }
{
    let cells = row.cells();
    bytes
        .saturating_sub(cells.publication_title.len())
        .saturating_sub(cells.coverage_depth.len())
        .saturating_sub(cells.embargo_info.len())
}

// Returns the rows behind the first ones.
fn rows_behind(rows: &[Row], count: usize) -> &[Row]
    ensures { result.now ≡ drop count rows.now }
{
    &rows[rows.len().min(count)..]
}

impl<'a> Walk<'a> {
    ghost use Rattle.node_titles.specs.Walks.{is_full, place_of, walk_at};

    fn new(alloc: Global, start: u32) -> Walk<'a>
        ensures { result ≡ walk_at start }
    {
        Walk {
            start,
            looks: LOOK_LIMIT,
            room: FOUND_LIMIT,
            bytes: TEXT_LIMIT,
            found: Vec::new(alloc),
            next: None,
            title: Vec::new(alloc),
        }
    }

    /// Returns the rows that it found, in their order.
    pub fn found(&self) -> &[ListedRow<'a>]
        ensures { result.now ≡ self.now.found }
    {
        &self.found
    }

    /// Returns the place where the next walk begins, if rows are left.
    pub fn next(&self) -> Option<usize>
        ensures { result ≡ self.now.next }
    {
        self.next
    }

    fn place(&self) -> usize
        ensures { result ≡ place_of self.now }
    {
        self.start as usize + LOOK_LIMIT.saturating_sub(self.looks)
    }

    // Returns whether the walk ends before one more row.
    fn is_full(&self) -> bool
        ensures { result ≡ is_full self.now.looks self.now.room self.now.bytes }
    {
        self.looks == 0 || self.room == 0 || self.bytes == 0
    }

    // Looks at the next row.
    fn look(
        &mut self,
        site: &SiteFile,
        finder: &Finder<'_>,
        name: &'a ReleaseName,
        row: &'a Row,
    ) -> Result<(), AllocError>
        ensures { OnOk result (self.new
            ≡ with_row (is_found site.now finder.now) self.old (entry_of name.now row.now)) }
    {
        if self.next.is_some() {
            return Ok(());
        }
        if self.is_full() {
            self.next = Some(self.place());
            return Ok(());
        }
        self.looks -= 1;
        self.bytes = bytes_after(self.bytes, row);
        if is_found(site, finder, &mut self.title, name, row)? {
            self.room -= 1;
            self.found.push(ListedRow { name, row })?;
        }
        Ok(())
    }

    // Walks over the rows of a release behind the first ones.
    fn look_at(
        &mut self,
        site: &SiteFile,
        finder: &Finder<'_>,
        name: &'a ReleaseName,
        rows: &'a [Row],
    ) -> Result<(), AllocError>
        ensures { OnOk result (self.new
            ≡ fold (with_row (is_found site.now finder.now)) self.old (map (entry_of name.now) rows.now)) }
    {
        for row in rows {
            if self.next.is_some() {
                return Ok(());
            }
            self.look(site, finder, name, row)?;
        }
        Ok(())
    }
}

// Walks over the rows of releases from a place on.
fn walk_from<'a>(
    alloc: Global,
    site: &SiteFile,
    actives: &[ActiveRelease<'a>],
    finder: &Finder<'_>,
    start: u32,
) -> Result<Walk<'a>, AllocError>
    ensures { IfOk result (λ walk. walk
        ≡ walk_from (is_found site.now finder.now) start (rows_among actives.now)) }
{
    let mut walk = Walk::new(alloc, start);
    let mut skip = start as usize;
    for active in actives {
        let rows = active.holdings().rows();
        walk.look_at(site, finder, active.name(), rows_behind(rows, skip))?;
        skip = skip.saturating_sub(rows.len());
    }
    Ok(walk)
}

/// Finds the rows of releases whose titles contain a text, without regard to case, and that the library has: at most 50
/// among the 20,000 rows from a place on. It looks at fewer rows once their texts have 2,097,152 bytes, and never finds
/// a row whose texts have more than 65,536.
///
/// # Errors
///
/// Running out of memory.
#[tactic(auto, unfolding(crate::specs::Walks::titles_from))]
pub fn find_titles<'a>(
    alloc: Global,
    site: &SiteFile,
    actives: &[ActiveRelease<'a>],
    text: &[u8],
    start: u32,
) -> Result<Walk<'a>, AllocError>
    ensures { IfOk result (λ walk. walk ≡ titles_from site.now text.now start actives.now) }
{
    let mut part = Vec::new(alloc);
    fold_case(&mut part, text)?;
    walk_from(alloc, site, actives, &Finder::new(&part), start)
}

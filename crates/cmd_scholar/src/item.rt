//! The item of a row.
ghost use Rattle.std.specs.Prelude.{◌≡◌, ◌++◌, OnOk, count_by};
ghost use Rattle.cmd_scholar.specs.Items.{embargo_in, is_left_out, item_text, item_with, left_out};
ghost use Rattle.feed_xml.specs.Marks.{xml_text};

use crate::fragment::ScholarFragment;
use crate::names::{COVERAGE, FROM, ITEM, ITEM_END, TITLE, TO};
use feed_answer::Embargo;
use feed_bytes::put_all;
use feed_kbart::{Kind, Row};
use std::alloc::AllocError;

/// Why a row has no item.
#[derive(Clone, Copy, Debug, PartialEq, Eq)]
pub enum LeftOut {
    /// It is a book's, and the programme has serials alone.
    Book,
    /// Its `embargo_info` has another form, so an item could show a link too early.
    OtherEmbargo,
}

// Returns the embargo of a row that has an item, or why it has none.
fn embargo_in(row: &Row) -> Result<Embargo, LeftOut>
    ensures { result ≡ embargo_in row.now }
{
    let cells = row.cells();
    match cells.kind() {
        Kind::Book => Err(LeftOut::Book),
        Kind::Serial => Embargo::read(cells.embargo_info).ok_or(LeftOut::OtherEmbargo),
    }
}

/// Returns why a row has no item, or `None` if it has one.
pub fn left_out(row: &Row) -> Option<LeftOut>
    ensures { result ≡ left_out row.now }
{
    embargo_in(row).err()
}

fn is_left_out(row: &Row, why: LeftOut) -> bool
    ensures { result ≡ is_left_out why row.now }
{
    match (why, left_out(row)) {
        (LeftOut::Book, Some(LeftOut::Book)) => true,
        (LeftOut::OtherEmbargo, Some(LeftOut::OtherEmbargo)) => true,
        _ => false,
    }
}

/// Returns how many of the rows are left out for a reason.
pub fn count_left_out(rows: &[Row], why: LeftOut) -> usize
    ensures { result ≡ count_by (is_left_out why) rows.now }
{
    rows.iter().filter(|row| is_left_out(row, why)).count()
}

fn put_item_with(out: &mut Vec<u8>, row: &Row, embargo: Embargo) -> Result<(), AllocError>
    ensures { OnOk result (out.new.items ≡ out.old.items ++ xml_text (item_with embargo row.now)) }
{
    let cells = row.cells();
    let first = cells.first_day();
    let last = cells.last_day();
    put_all(
        out,
        &[
            ScholarFragment::Opened(ITEM),
            ScholarFragment::Leaf(TITLE, cells.publication_title),
            ScholarFragment::Issn(row.print()),
            ScholarFragment::Issn(row.online()),
            ScholarFragment::Opened(COVERAGE),
            ScholarFragment::Day(FROM, first),
            ScholarFragment::Day(TO, last),
            ScholarFragment::Embargo(embargo),
            ScholarFragment::Closed(COVERAGE),
            ScholarFragment::Closed(ITEM_END),
            ScholarFragment::Text(b"\n"),
        ],
    )
}

/// Appends the item of a row, as a line. Appends nothing if the row is left out.
///
/// # Errors
///
/// Running out of memory. A part of the item may be appended then.
pub fn put_item(out: &mut Vec<u8>, row: &Row) -> Result<(), AllocError>
    ensures { OnOk result (out.new.items ≡ out.old.items ++ item_text row.now) }
{
    match embargo_in(row) {
        Ok(embargo) => put_item_with(out, row, embargo),
        Err(_) => Ok(()),
    }
}

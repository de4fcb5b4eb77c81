//! The lines of a holdings file: their cells, and what is wrong with them.
ghost use Rattle.std.specs.Prelude.{◌≡◌, ◌≤◌, length};
ghost use Rattle.node_site.specs.HoldingsFiles.{cells_of, has_header, holding_in, line_at, line_number};
ghost use Rattle.node_site.specs.HoldingsFiles.{subject_at, without_mark, without_return};
ghost use Rattle.node_site.specs.HoldingsFaults.{at_line, cell_fault, cells_flaw, flaw_at, is_empty_or};
ghost use Rattle.node_site.specs.HoldingsFaults.{is_yes_or_no, line_fault};
ghost use Rattle.node_site.specs.Kinds.{is_date, is_text};
ghost use Rattle.node_site.specs.Limits.{holdings_limit};

use crate::bytes::count_of;
use crate::checks::is_backward;
use crate::column::Column;
use crate::cuts::{after, before, is_sized};
use crate::fault::ValueFault;
use crate::holding::Holding;
use crate::holdings_fault::BadLine;
use crate::text::{is_date, is_package};
use feed_dates::DayRange;
use std::marker::Model;

// The byte-order mark of UTF-8, which a spreadsheet may write.
const MARK: &[u8] = b"\xef\xbb\xbf";

// The names of the columns.
const HEADER: &[u8] = b"package\ttitle_id\tfirst\tlast\theld";

/// The cells of a line.
#[derive(Drop)]
pub(crate) struct Cells<'a> {
    package_id: &'a [u8],
    id: &'a [u8],
    first: &'a [u8],
    last: &'a [u8],
    held: &'a [u8],
}

impl<'a> Model for Cells<'a> {
    ghost use Rattle.node_site.specs.HoldingsFiles.{LineValue};

    ghost Value = { LineValue };

    ghost view = { λ c. record {
      package_id = c.package_id.now;
      id = c.id.now;
      first = c.first.now;
      last = c.last.now;
      held = c.held.now;
    } };
}

/// The first cell that is not accepted, and the reason.
#[derive(Clone, Copy)]
pub(crate) struct CellFlaw {
    pub(crate) column: Column,
    pub(crate) reason: ValueFault,
}

fn without_mark(text: &[u8]) -> &[u8]
    ensures { result.now ≡ without_mark text.now }
{
    match text.split_at_checked(3) {
        Some((mark, rest)) => { if mark == MARK { rest } else { text } }
        None => text,
    }
}

fn without_return(line: &[u8]) -> &[u8]
    ensures { result.now ≡ without_return line.now }
{
    match line.split_last() {
        Some((last, front)) => { if *last == b'\r' { front } else { line } }
        None => line,
    }
}

/// Returns the line that begins at a place.
pub(crate) fn line_at(text: &[u8], place: usize) -> &[u8]
    ensures { result.now ≡ line_at text.now place }
{
    without_return(before(b'\n', &text[text.len().min(place)..]))
}

/// Returns whether the first line of a text is the header.
pub(crate) fn has_header(text: &[u8]) -> bool
    ensures { result ≡ has_header text.now }
{
    without_mark(line_at(text, 0)) == HEADER
}

impl<'a> Cells<'a> {
    /// Returns the cells of a line.
    pub(crate) fn of(line: &'a [u8]) -> Cells<'a>
        ensures { result ≡ cells_of line.now }
    {
        let behind_package = after(b'\t', line);
        let behind_id = after(b'\t', behind_package);
        let behind_first = after(b'\t', behind_id);
        Cells {
            package_id: before(b'\t', line),
            id: before(b'\t', behind_package),
            first: before(b'\t', behind_id),
            last: before(b'\t', behind_first),
            held: after(b'\t', behind_first),
        }
    }

    /// Returns the package and the title that the line is about.
    pub(crate) fn subject(&self) -> (&'a [u8], &'a [u8])
        ensures package { result.0.now ≡ self.now.package_id }
        ensures title { result.1.now ≡ self.now.id }
    {
        (self.package_id, self.id)
    }

    /// Returns what the cells say that the library has.
    pub(crate) fn holding(&self) -> Holding
        ensures { result ≡ holding_in self.now }
    {
        Holding {
            is_held: self.held == b"yes".as_slice(),
            first: DayRange::of_text(self.first).map(|days| days.first),
            last: DayRange::of_text(self.last).map(|days| days.last),
        }
    }
}

/// Returns the package and the title that the line at a place is about.
pub(crate) fn subject_at(text: &[u8], place: usize) -> (&[u8], &[u8])
    ensures { (result.0.now, result.1.now) ≡ subject_at text.now place }
{
    let line = line_at(text, place);
    (before(b'\t', line), before(b'\t', after(b'\t', line)))
}

fn is_text_or_empty(cell: &[u8]) -> bool
    ensures { result ≡ is_empty_or is_text cell.now }
{
    cell.is_empty() || is_sized(1, 250, cell)
}

fn is_date_or_empty(cell: &[u8]) -> bool
    ensures { result ≡ is_empty_or is_date cell.now }
{
    cell.is_empty() || is_date(cell)
}

fn is_yes_or_no(cell: &[u8]) -> bool
    ensures { result ≡ is_yes_or_no cell.now }
{
    cell == b"yes".as_slice() || cell == b"no".as_slice()
}

fn flaw_at(column: Column, reason: ValueFault) -> Option<CellFlaw>
    ensures { result ≡ flaw_at column reason }
{
    Some(CellFlaw { column, reason })
}

// Returns the first cell that is not accepted.
fn cells_flaw(cells: &Cells<'_>) -> Option<CellFlaw>
    ensures { result ≡ cells_flaw cells.now }
{
    if !is_package(cells.package_id) {
        flaw_at(Column::Package, ValueFault::Package)
    } else if !is_text_or_empty(cells.id) {
        flaw_at(Column::TitleId, ValueFault::TextSize)
    } else if !is_date_or_empty(cells.first) {
        flaw_at(Column::First, ValueFault::Date)
    } else if !is_date_or_empty(cells.last) {
        flaw_at(Column::Last, ValueFault::Date)
    } else if is_backward(
        DayRange::of_text(cells.first),
        DayRange::of_text(cells.last),
    ) {
        flaw_at(Column::Last, ValueFault::Order)
    } else if !is_yes_or_no(cells.held) {
        flaw_at(Column::Held, ValueFault::NotYesOrNo)
    } else {
        None
    }
}

#[tactic(auto, using(crate::proofs::HoldingsRows::few_feeds))]
fn line_number(text: &[u8], place: usize) -> usize
    requires { length text.now ≤ holdings_limit }
    ensures { result ≡ line_number text.now place }
{
    1 + count_of(b'\n', &text[..text.len().min(place)])
}

/// Returns the fault of the line that begins at a place, as a whole.
pub(crate) fn at_line(text: &[u8], place: usize, reason: ValueFault) -> BadLine
    requires { length text.now ≤ holdings_limit }
    ensures { result ≡ at_line text.now place reason }
{
    BadLine {
        line: line_number(text, place),
        column: None,
        reason,
    }
}

fn cell_fault(text: &[u8], place: usize, flaw: Option<CellFlaw>) -> Option<BadLine>
    requires { length text.now ≤ holdings_limit }
    ensures { result ≡ cell_fault text.now place flaw }
{
    match flaw {
        Some(flaw) => Some(BadLine {
            line: line_number(text, place),
            column: Some(flaw.column),
            reason: flaw.reason,
        }),
        None => None,
    }
}

/// Returns what is wrong with the line that begins at a place and has these cells.
pub(crate) fn line_fault(
    text: &[u8],
    place: usize,
    line: &[u8],
    cells: &Cells<'_>,
) -> Option<BadLine>
    requires short { length text.now ≤ holdings_limit }
    requires line { line.now ≡ line_at text.now place }
    requires cells { cells.now ≡ cells_of line.now }
    ensures { result ≡ line_fault text.now place }
{
    if count_of(b'\t', line) == 4 {
        cell_fault(text, place, cells_flaw(cells))
    } else {
        Some(at_line(text, place, ValueFault::Columns))
    }
}

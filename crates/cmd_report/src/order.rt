//! The orders of rows by which lists are paired: rows that are alike are neighbors in them.
ghost use Rattle.std.specs.Prelude.{◌≡◌};
ghost use Rattle.std.specs.Option.{option_and_then};
ghost use Rattle.std.specs.Ordering.{ordering_then};
ghost use Rattle.cmd_report.specs.Columns.{is_book};
ghost use Rattle.cmd_report.specs.Ranking.{coverage_cmp, identifiers_cmp, texts_cmp};
ghost use Rattle.cmd_report.specs.Ranking.{first_number, further_cmp, row_of_cells, text_cmp};
ghost use Rattle.feed_identifiers.specs.Identifier.{isbn_in, issn_in};
ghost use Rattle.feed_kbart.specs.RowCells.{content_of};

use feed_identifiers::{Identifier, Isbn, Issn};
use feed_kbart::{Kind, Row, RowCells};
use std::cmp::Ordering;

/// The columns by which rows are compared.
#[derive(Clone, Copy, Debug)]
pub(crate) enum By {
    /// All columns.
    Content,
    /// The title id and the identifiers.
    TitleId,
    /// The URL and the identifiers.
    Url,
}

/// Returns whether a row with these cells is a book's.
pub(crate) fn is_book(cells: &RowCells<'_>) -> bool
    ensures { result ≡ is_book (content_of cells.now).identifiers }
{
    match cells.kind() {
        Kind::Serial => false,
        Kind::Book => true,
    }
}

fn issn_in(identifier: &Option<Identifier>) -> Option<Issn>
    ensures { result ≡ option_and_then issn_in identifier.now }
{
    match identifier {
        Some(Identifier::Issn(issn)) => Some(*issn),
        _ => None,
    }
}

fn isbn_in(identifier: &Option<Identifier>) -> Option<Isbn>
    ensures { result ≡ option_and_then isbn_in identifier.now }
{
    match identifier {
        Some(Identifier::Isbn(isbn)) => Some(*isbn),
        _ => None,
    }
}

fn compare_identifiers(one: &RowCells<'_>, other: &RowCells<'_>) -> Ordering
    ensures { result ≡ identifiers_cmp (row_of_cells one.now).identifiers (row_of_cells other.now).identifiers }
{
    let (print, online) = (one.print(), one.online());
    let first = (
        is_book(one),
        issn_in(&print),
        issn_in(&online),
        isbn_in(&print),
        isbn_in(&online),
    );
    let (print, online) = (other.print(), other.online());
    let second = (
        is_book(other),
        issn_in(&print),
        issn_in(&online),
        isbn_in(&print),
        isbn_in(&online),
    );
    first.cmp(&second)
}

#[tactic(auto, unfolding(crate::specs::Ranking::row_of_cells))]
fn compare_coverage(one: &RowCells<'_>, other: &RowCells<'_>) -> Ordering
    ensures { result ≡ coverage_cmp (row_of_cells one.now) (row_of_cells other.now) }
{
    let (first_volume, last_volume) = one.volumes();
    let first = (one.first_day(), one.last_day(), first_volume, last_volume);
    let (first_volume, last_volume) = other.volumes();
    let second = (
        other.first_day(),
        other.last_day(),
        first_volume,
        last_volume,
    );
    first.cmp(&second)
}

#[tactic(auto, unfolding(crate::specs::Ranking::row_of_cells))]
fn compare_texts(one: &RowCells<'_>, other: &RowCells<'_>) -> Ordering
    ensures { result ≡ texts_cmp (row_of_cells one.now) (row_of_cells other.now) }
{
    let first = (
        one.title_id,
        one.title_url,
        one.publication_title,
        one.coverage_depth,
        one.embargo_info,
        one.access_type,
    );
    let second = (
        other.title_id,
        other.title_url,
        other.publication_title,
        other.coverage_depth,
        other.embargo_info,
        other.access_type,
    );
    first.cmp(&second)
}

// Compares by the coverage what a first comparison has left equal.
fn then_coverage(first: Ordering, one: &RowCells<'_>, other: &RowCells<'_>) -> Ordering
    ensures { result ≡ ordering_then first (coverage_cmp (row_of_cells one.now) (row_of_cells other.now)) }
{
    match first {
        Ordering::Less => Ordering::Less,
        Ordering::Equal => compare_coverage(one, other),
        Ordering::Greater => Ordering::Greater,
    }
}

// Compares by the identifiers what a first comparison has left equal.
fn then_identifiers(first: Ordering, one: &RowCells<'_>, other: &RowCells<'_>) -> Ordering
    ensures { result ≡ ordering_then first
        (identifiers_cmp (row_of_cells one.now).identifiers (row_of_cells other.now).identifiers) }
{
    match first {
        Ordering::Less => Ordering::Less,
        Ordering::Equal => compare_identifiers(one, other),
        Ordering::Greater => Ordering::Greater,
    }
}

#[tactic(auto, unfolding(crate::specs::Ranking::row_of_cells))]
fn compare_title_ids(one: &RowCells<'_>, other: &RowCells<'_>) -> Ordering
    ensures { result ≡ text_cmp (row_of_cells one.now).title_id (row_of_cells other.now).title_id }
{
    one.title_id.cmp(&other.title_id)
}

#[tactic(auto, unfolding(crate::specs::Ranking::row_of_cells))]
fn compare_urls(one: &RowCells<'_>, other: &RowCells<'_>) -> Ordering
    ensures { result ≡ text_cmp (row_of_cells one.now).url (row_of_cells other.now).url }
{
    one.title_url.cmp(&other.title_url)
}

/// Returns the key of the first identifier of a row.
pub(crate) fn first_number(row: &Row) -> u32
    ensures { result ≡ first_number row.now.identifiers }
{
    let cells = row.cells();
    match cells.print() {
        Some(one) => one.key(),
        None => match cells.online() {
            Some(one) => one.key(),
            None => 0,
        },
    }
}

impl By {
    fn compare_cells(self, one: &RowCells<'_>, other: &RowCells<'_>) -> Ordering
        ensures { result ≡ further_cmp self (row_of_cells one.now) (row_of_cells other.now) }
    {
        match self {
            By::Content => {
                let first = then_coverage(compare_texts(one, other), one, other);
                then_identifiers(first, one, other)
            }
            By::TitleId => then_identifiers(compare_title_ids(one, other), one, other),
            By::Url => then_identifiers(compare_urls(one, other), one, other),
        }
    }

    /// Compares two rows whose first identifiers have the same number.
    pub(crate) fn compare_further(self, one: &Row, other: &Row) -> Ordering
        ensures { result ≡ further_cmp self one.now other.now }
    {
        if one.has_same_cells(other) {
            return Ordering::Equal;
        }
        self.compare_cells(&one.cells(), &other.cells())
    }
}

//! The comparison of two lists.
ghost use Rattle.std.specs.Prelude.{◌≡◌, IfOk, OnOk, map};
ghost use Rattle.std.specs.List.Sorted.{IsNonDecreasingBy, IsPermutation};
ghost use Rattle.cmd_report.specs.Comparison.{IsComparison};
ghost use Rattle.cmd_report.specs.Pairing.{ArePairedChanges, IsPairing, change_of, row_of};
ghost use Rattle.cmd_report.specs.declared.order.By.TheVariants as key;
ghost use Rattle.cmd_report.specs.Laws.{ChangesHaveAColumn, CountsAddUp};
ghost use Rattle.cmd_report.specs.Columns.{is_same};
ghost use Rattle.feed_kbart.specs.RowCells.{content_of};

use crate::numbered::{Numbered, rows_of};
use crate::order::{By, is_book};
use crate::pairing::{Pairing, pair_rest};
use crate::singles::pair_singles;
use crate::unchanged::pair_unchanged;
use feed_kbart::{Label, Row, RowCells};
use std::alloc::{AllocError, Global};
use std::marker::Model;

/// The rows that a new list removes, changes and adds, each in file order. Changes are in the order of the old list.
#[derive(Drop)]
pub struct Comparison<'a> {
    removed: Vec<&'a Row>,
    changed: Vec<RowChange<'a>>,
    added: Vec<&'a Row>,
}

impl<'a> Model for Comparison<'a> {
    ghost use Rattle.std.specs.Prelude.{map};
    ghost use Rattle.cmd_report.specs.Comparison.{ComparisonValue};
    ghost use Rattle.cmd_report.specs.Pairing.{change_of, row_of};

    ghost Value = { ComparisonValue };

    ghost view = { λ c. record {
      removed = map row_of c.removed.items;
      changed = map change_of c.changed.items;
      added = map row_of c.added.items;
    } };
}

impl<'a> Comparison<'a> {
    /// Returns the rows of the old list that no row of the new list takes the place of.
    pub fn removed(&self) -> &[&'a Row]
        ensures { map row_of result.now ≡ self.now.removed }
    {
        &self.removed
    }

    /// Returns the rows of the old list that differ from the row of the new list that takes their place.
    pub fn changed(&self) -> &[RowChange<'a>]
        ensures { map change_of result.now ≡ self.now.changed }
    {
        &self.changed
    }

    /// Returns the rows of the new list that take the place of no row of the old list.
    pub fn added(&self) -> &[&'a Row]
        ensures { map row_of result.now ≡ self.now.added }
    {
        &self.added
    }
}

fn references<'a>(alloc: Global, rows: &'a [Row]) -> Result<Vec<&'a Row>, AllocError>
    ensures { IfOk result (λ list. map row_of list.items ≡ rows.now) }
{
    let mut list = Vec::with_capacity(alloc, rows.len())?;
    for row in rows {
        list.push(row)?;
    }
    Ok(list)
}

// Pairs the rows that are equal: first those in the same order in both lists, and then the others.
fn pair_equal<'a>(
    alloc: Global,
    old: Vec<&'a Row>,
    new: Vec<&'a Row>,
) -> Result<Pairing<'a>, AllocError>
    ensures { IfOk result (IsPairing key.Content old.entry.items new.entry.items) }
{
    let unchanged = pair_unchanged(alloc, &old, &new)?;
    pair_rest(alloc, By::Content, unchanged)
}

// Pairs the rows that differ: by title id and identifiers if both rows are the only ones, and then by URL and
// identifiers.
fn pair_changes<'a>(
    alloc: Global,
    old: Vec<Numbered<'a>>,
    new: Vec<Numbered<'a>>,
) -> Result<Pairing<'a>, AllocError>
    ensures { IfOk result (ArePairedChanges old.entry.items new.entry.items) }
{
    let titles = pair_singles(alloc, By::TitleId, old, new)?;
    pair_rest(alloc, By::Url, titles)
}

fn sort_rows<'a>(alloc: Global, numbered: &[Numbered<'a>]) -> Result<Vec<&'a Row>, AllocError>
    ensures permutation { IfOk result (λ rows. IsPermutation numbered.now rows.items) }
    ensures order { IfOk result (λ rows. IsNonDecreasingBy (λ row. row.now.number) rows.items) }
{
    let mut rows = rows_of(alloc, numbered)?;
    rows.sort_by_key(
        |row: &&Row| -> u32
            ensures { result ≡ row.now.now.number }
        { row.number() },
    )?;
    Ok(rows)
}

fn sort_changes(changes: &mut Vec<RowChange<'_>>) -> Result<(), AllocError>
    ensures permutation { IsPermutation changes.old.items changes.new.items }
    ensures order { OnOk result (IsNonDecreasingBy (λ change. change.old.now.number) changes.new.items) }
{
    changes.sort_by_key(
        |change: &RowChange<'_>| -> u32
            ensures { result ≡ change.now.old.now.number }
        { change.old.number() },
    )
}

/// Compares the rows of two lists. Takes time in proportion to `n log n` for lists of `n` rows.
///
/// # Errors
///
/// Running out of memory.
pub fn compare<'a>(
    alloc: Global,
    old: &'a [Row],
    new: &'a [Row],
) -> Result<Comparison<'a>, AllocError>
    ensures { IfOk result (IsComparison old.now new.now) }
{
    let old_rows = references(alloc, old)?;
    let new_rows = references(alloc, new)?;
    let Pairing { pairs: _, old, new } = pair_equal(alloc, old_rows, new_rows)?;
    let Pairing {
        mut pairs,
        old,
        new,
    } = pair_changes(alloc, old, new)?;
    let removed = sort_rows(alloc, &old)?;
    sort_changes(&mut pairs)?;
    let added = sort_rows(alloc, &new)?;
    Ok(Comparison {
        removed,
        changed: pairs,
        added,
    })
}

/// Taking the removed rows of the old list away, changing the changed ones and adding the added ones gives the rows of
/// the new list: any test of a row's columns passes for as many rows on both sides.
pub fn counts_add_up()
    ensures { CountsAddUp }
{}

/// Two rows are equal exactly if they have the same value in each column.
pub fn changes_have_a_column()
    ensures { ChangesHaveAColumn }
{}

/// A row of the old list, and the row of the new list that takes its place.
#[derive(Clone, Copy)]
pub struct RowChange<'a> {
    pub old: &'a Row,
    pub new: &'a Row,
}

/// Returns whether rows with these cells have the same value in a column, as a list is read.
pub fn is_same(label: Label, old: &RowCells<'_>, new: &RowCells<'_>) -> bool
    ensures { result ≡ is_same label (content_of old.now) (content_of new.now) }
{
    match label {
        Label::PublicationTitle => old.publication_title == new.publication_title,
        Label::PrintIdentifier => old.print() == new.print(),
        Label::OnlineIdentifier => old.online() == new.online(),
        Label::DateFirstIssueOnline => old.first_day() == new.first_day(),
        Label::NumFirstVolOnline => old.volumes().0 == new.volumes().0,
        Label::DateLastIssueOnline => old.last_day() == new.last_day(),
        Label::NumLastVolOnline => old.volumes().1 == new.volumes().1,
        Label::TitleUrl => old.title_url == new.title_url,
        Label::TitleId => old.title_id == new.title_id,
        Label::EmbargoInfo => old.embargo_info == new.embargo_info,
        Label::CoverageDepth => old.coverage_depth == new.coverage_depth,
        Label::PublicationType => is_book(old) == is_book(new),
        Label::AccessType => old.access_type == new.access_type,
    }
}

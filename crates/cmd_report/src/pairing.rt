//! Pairs the rows of two lists that are alike, in one pass over both lists in order.
ghost use Rattle.std.specs.Prelude.{◌≡◌, IfOk, OnOk};
ghost use Rattle.std.specs.List.Sorted.{IsPermutation};
ghost use Rattle.cmd_report.specs.Pairing.{AreSorted, IsContinued, IsPairing, IsStep};
ghost use Rattle.cmd_report.specs.Ranking.{ranking};

use crate::comparison::RowChange;
use crate::numbered::Numbered;
use crate::order::By;
use std::alloc::{AllocError, Global};
use std::cmp::Ordering;

/// Rows of two lists in pairs, and the rows of each list that are left over.
#[derive(Drop)]
pub(crate) struct Pairing<'a> {
    pub(crate) pairs: Vec<RowChange<'a>>,
    pub(crate) old: Vec<Numbered<'a>>,
    pub(crate) new: Vec<Numbered<'a>>,
}

/// The next rows of two lists in order: the first of one list, or of both if they are alike.
pub(crate) enum Step<'a> {
    Old(Numbered<'a>),
    New(Numbered<'a>),
    Both(RowChange<'a>),
    End,
}

/// Sorts rows, those that are alike in file order.
pub(crate) fn sort(by: By, rows: &mut Vec<Numbered<'_>>) -> Result<(), AllocError>
    ensures permutation { IsPermutation rows.old.items rows.new.items }
    ensures sorted { OnOk result (AreSorted by rows.new.items) }
{
    rows.sort_by_key(
        |row: &Numbered<'_>| -> u32
            ensures { result ≡ row.now.now.number }
        { row.row().number() },
    )?;
    rows.sort_by(
        |one: &Numbered<'_>, other: &Numbered<'_>| -> Ordering
            ensures { result ≡ ranking by one.now.now other.now.now }
        { one.compare(by, other) },
    )
}

// Returns the next rows of two sorted lists, from a place in each.
fn next_step<'a>(by: By, old: &[Numbered<'a>], i: usize, new: &[Numbered<'a>], j: usize) -> Step<'a>
    requires old { AreSorted by old.now }
    requires new { AreSorted by new.now }
    ensures { IsStep by old.now i new.now j result }
{
    match (old.get(i), new.get(j)) {
        (Some(old), Some(new)) => match old.compare(by, new) {
            Ordering::Less => Step::Old(old.again()),
            Ordering::Equal => Step::Both(RowChange {
                old: old.row(),
                new: new.row(),
            }),
            Ordering::Greater => Step::New(new.again()),
        },
        (Some(old), None) => Step::Old(old.again()),
        (None, Some(new)) => Step::New(new.again()),
        (None, None) => Step::End,
    }
}

/// Pairs the rows of two sorted lists that are alike, until none are left that are.
pub(crate) fn merge<'a>(
    alloc: Global,
    by: By,
    old: &[Numbered<'a>],
    new: &[Numbered<'a>],
) -> Result<Pairing<'a>, AllocError>
    requires old { AreSorted by old.now }
    requires new { AreSorted by new.now }
    ensures { IfOk result (IsPairing by old.now new.now) }
{
    let mut pairs = Vec::new(alloc);
    let mut left_old = Vec::new(alloc);
    let mut left_new = Vec::new(alloc);
    let mut i = 0usize;
    let mut j = 0usize;
    loop {
        match next_step(by, old, i, new, j) {
            Step::Old(row) => {
                left_old.push(row)?;
                i += 1;
            }
            Step::New(row) => {
                left_new.push(row)?;
                j += 1;
            }
            Step::Both(pair) => {
                pairs.push(pair)?;
                i += 1;
                j += 1;
            }
            Step::End => break,
        }
    }
    Ok(Pairing {
        pairs,
        old: left_old,
        new: left_new,
    })
}

/// Pairs the rows of two lists that are alike, the first with the first in file order, until none are left that are.
pub(crate) fn pair_up<'a>(
    alloc: Global,
    by: By,
    mut old: Vec<Numbered<'a>>,
    mut new: Vec<Numbered<'a>>,
) -> Result<Pairing<'a>, AllocError>
    ensures { IfOk result (IsPairing by old.entry.items new.entry.items) }
{
    sort(by, &mut old)?;
    sort(by, &mut new)?;
    merge(alloc, by, &old, &new)
}

/// Pairs the rows that a first step leaves over, and adds the pairs to those of the first step.
pub(crate) fn pair_rest<'a>(
    alloc: Global,
    by: By,
    first: Pairing<'a>,
) -> Result<Pairing<'a>, AllocError>
    ensures { IfOk result (IsContinued by first.entry) }
{
    let Pairing {
        mut pairs,
        old,
        new,
    } = first;
    let mut rest = pair_up(alloc, by, old, new)?;
    pairs.append(&mut rest.pairs)?;
    Ok(Pairing {
        pairs,
        old: rest.old,
        new: rest.new,
    })
}

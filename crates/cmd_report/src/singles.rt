//! Pairs the rows of two lists that are alike if no other row of their list is.
ghost use Rattle.std.specs.Prelude.{◌≡◌, ◌+◌, ◌<◌, IfOk, IsTrue, ◌↔◌, not, length};
ghost use Rattle.std.specs.List.{HoldsAt, filter};
ghost use Rattle.cmd_report.specs.Pairing.{AreSorted, AreTied, IsSinglePairing, is_single};

use crate::numbered::Numbered;
use crate::order::By;
use crate::pairing::{Pairing, merge, sort};
use std::alloc::{AllocError, Global};

// The rows of a list that no other row of it is alike, and the other ones.
#[derive(Drop)]
struct Split<'a> {
    singles: Vec<Numbered<'a>>,
    others: Vec<Numbered<'a>>,
}

// Returns whether the row at a place and the next one are alike.
fn are_tied(by: By, rows: &[Numbered<'_>], place: usize) -> bool
    requires { place < length rows.now }
    ensures { IsTrue result ↔ AreTied by rows.now place }
{
    match rows.get(place + 1) {
        Some(next) => rows[place].compare(by, next).is_eq(),
        None => false,
    }
}

// Returns whether no other row of a sorted list is alike the row at a place.
fn is_single(by: By, rows: &[Numbered<'_>], place: usize) -> bool
    requires place { place < length rows.now }
    requires sorted { AreSorted by rows.now }
    ensures { HoldsAt (λ row. result ≡ is_single by rows.now row) rows.now place }
{
    if place > 0 && are_tied(by, rows, place - 1) {
        return false;
    }
    !are_tied(by, rows, place)
}

// Splits a sorted list.
fn split_singles<'a>(alloc: Global, by: By, rows: &[Numbered<'a>]) -> Result<Split<'a>, AllocError>
    requires { AreSorted by rows.now }
    ensures singles { IfOk result (λ split. split.singles.items ≡ filter (is_single by rows.now) rows.now) }
    ensures others { IfOk result (λ split. split.others.items
        ≡ filter (λ row. not (is_single by rows.now row)) rows.now) }
{
    let mut singles = Vec::new(alloc);
    let mut others = Vec::new(alloc);
    for (place, row) in rows.iter().enumerate() {
        if is_single(by, rows, place) {
            singles.push(row.again())?;
        } else {
            others.push(row.again())?;
        }
    }
    Ok(Split { singles, others })
}

/// Pairs the rows of two lists that are alike if each is the only such row of its list.
pub(crate) fn pair_singles<'a>(
    alloc: Global,
    by: By,
    mut old: Vec<Numbered<'a>>,
    mut new: Vec<Numbered<'a>>,
) -> Result<Pairing<'a>, AllocError>
    ensures { IfOk result (IsSinglePairing by old.entry.items new.entry.items) }
{
    sort(by, &mut old)?;
    sort(by, &mut new)?;
    let mut of_old = split_singles(alloc, by, &old)?;
    let mut of_new = split_singles(alloc, by, &new)?;
    let mut pairing = merge(alloc, by, &of_old.singles, &of_new.singles)?;
    pairing.old.append(&mut of_old.others)?;
    pairing.new.append(&mut of_new.others)?;
    Ok(pairing)
}

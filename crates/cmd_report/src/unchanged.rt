//! Pairs the rows that a new list has unchanged and in the order of the old list, in one pass and without a sort.
ghost use Rattle.std.specs.Prelude.{◌≡◌, ◌≤◌, ◌<◌, ◌++◌, IfOk, IfSome, OnOk, length, map};
ghost use Rattle.std.specs.List.{All, HoldsAt};
ghost use Rattle.std.specs.declared.cmp.Ordering.TheVariants.{Equal};
ghost use Rattle.feed_kbart.specs.RowValue.{content};
ghost use Rattle.cmd_report.specs.Pairing.{ArePaired, firsts, order, seconds};
ghost use Rattle.cmd_report.specs.Ranking.{first_number};
ghost use Rattle.cmd_report.specs.declared.order.By.TheVariants as key;

use crate::comparison::RowChange;
use crate::left_rows::LeftRows;
use crate::numbered::{add_row, add_rows};
use crate::pairing::Pairing;
use feed_kbart::Row;
use std::alloc::{AllocError, Global};

// The number of rows among which a row is searched. Between two releases mostly single rows are inserted.
const REACH: usize = 16;

// The number of rows among which the next row is searched. It doubles with each row that is not found, to pass over a
// block of new rows. In all, such searches pass over at most eight rows for each row of a list: lists in another order
// are left to the sort.
#[derive(Clone, Copy)]
struct Reach {
    rows: usize,
    spare: usize,
}

impl Reach {
    fn of_list(rows: usize) -> Reach {
        Reach {
            rows: REACH,
            spare: rows.saturating_mul(8),
        }
    }

    fn after_hit(self) -> Reach {
        Reach {
            rows: REACH,
            spare: self.spare,
        }
    }

    fn after_miss(self) -> Reach {
        if self.rows > self.spare {
            return self.after_hit();
        }
        Reach {
            rows: self.rows.saturating_mul(2),
            spare: self.spare - self.rows,
        }
    }
}

// Returns the place of a row with the same cells, the first within reach.
fn place_of(row: &Row, rows: &[&Row], from: usize, reach: Reach) -> Option<usize>
    ensures within { IfSome result (λ place. (from ≤ place) × (place < length rows.now)) }
    ensures equal { IfSome result
        (λ place. HoldsAt (λ other. content row.now ≡ content other.now) rows.now place) }
{
    let end = rows.len().min(from.saturating_add(reach.rows));
    for place in from..end {
        if row.has_same_cells(rows[place]) {
            return Some(place);
        }
    }
    None
}

// Pairs rows that are equal and in the same order in both lists.
fn pair_in_order<'a>(
    alloc: Global,
    old: &[&'a Row],
    new: &[&'a Row],
) -> Result<Pairing<'a>, AllocError>
    ensures { IfOk result (ArePaired key.Content old.now new.now) }
{
    let mut pairs = Vec::with_capacity(alloc, old.len().min(new.len()))?;
    let mut left_old = Vec::new(alloc);
    let mut left_new = Vec::new(alloc);
    let mut next = 0usize;
    let mut reach = Reach::of_list(old.len());
    for row in old {
        match place_of(*row, new, next, reach) {
            Some(place) => {
                add_rows(&mut left_new, &new[next..place])?;
                pairs.push(RowChange {
                    old: *row,
                    new: new[place],
                })?;
                next = place + 1;
                reach = reach.after_hit();
            }
            None => {
                add_row(&mut left_old, *row)?;
                reach = reach.after_miss();
            }
        }
    }
    add_rows(&mut left_new, &new[next..])?;
    Ok(Pairing {
        pairs,
        old: left_old,
        new: left_new,
    })
}

// Takes the pairs apart whose rows may be equal to one that is left over.
fn take_apart<'a>(
    alloc: Global,
    first: Pairing<'a>,
    left: &LeftRows,
) -> Result<Pairing<'a>, AllocError>
    requires { All (λ pair. order key.Content pair.old pair.new ≡ Equal) first.pairs.items }
    ensures { IfOk result (ArePaired key.Content (first.entry.old.items ++ firsts first.entry.pairs.items)
        (first.entry.new.items ++ seconds first.entry.pairs.items)) }
{
    let Pairing {
        pairs,
        mut old,
        mut new,
    } = first;
    let mut kept = Vec::with_capacity(alloc, pairs.len())?;
    for pair in &pairs {
        if left.may_have_equal(pair.old) {
            add_row(&mut old, pair.old)?;
            add_row(&mut new, pair.new)?;
        } else {
            kept.push(*pair)?;
        }
    }
    Ok(Pairing {
        pairs: kept,
        old,
        new,
    })
}

/// Pairs rows that are equal and in the same order in both lists. If it leaves over one of several equal rows, it
/// leaves over all of them, and the sort then pairs the first with the first.
pub(crate) fn pair_unchanged<'a>(
    alloc: Global,
    old: &[&'a Row],
    new: &[&'a Row],
) -> Result<Pairing<'a>, AllocError>
    ensures { IfOk result (ArePaired key.Content old.now new.now) }
{
    let first = pair_in_order(alloc, old, new)?;
    let left = LeftRows::of(alloc, &first.old, &first.new)?;
    take_apart(alloc, first, &left)
}

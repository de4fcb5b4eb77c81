//! Rows with the numbers of their first identifiers, which are made once and order most rows without a look at them.
ghost use Rattle.std.specs.Prelude.{◌≡◌, [], ◌∷◌, ◌++◌, IfOk, OnOk};
ghost use Rattle.cmd_report.specs.Ranking.{first_number, ranking};

use crate::order::{By, first_number};
use feed_kbart::Row;
use std::alloc::{AllocError, Global};
use std::cmp::Ordering;
use std::marker::Model;

/// A row with the number of its first identifier.
#[derive(Drop)]
pub(crate) struct Numbered<'a> {
    number: u32,
    row: &'a Row,
}

impl<'a> Model for Numbered<'a> {
    ghost use Rattle.std.specs.Prelude.{◌≡◌};
    ghost use Rattle.std.specs.Borrow.{Bor};
    ghost use Rattle.feed_kbart.specs.RowValue.{RowValue};
    ghost use Rattle.cmd_report.specs.Ranking.{first_number};

    ghost Value = { Bor RowValue };

    ghost view = { λ numbered. numbered.row };

    ghost invariant = { λ numbered. numbered.number ≡ first_number numbered.row.now.identifiers };
}

impl<'a> Numbered<'a> {
    pub(crate) fn new(row: &'a Row) -> Numbered<'a>
        ensures { result ≡ row.entry }
    {
        Numbered {
            number: first_number(row),
            row,
        }
    }

    /// Returns the same row and number.
    pub(crate) fn again(&self) -> Numbered<'a>
        ensures { result ≡ self.now }
    {
        Numbered {
            number: self.number,
            row: self.row,
        }
    }

    pub(crate) fn number(&self) -> u32
        ensures { result ≡ first_number self.now.now.identifiers }
    {
        self.number
    }

    pub(crate) fn row(&self) -> &'a Row
        ensures { result ≡ self.now }
    {
        self.row
    }

    /// Compares two rows, first by their numbers. The result is `Equal` exactly if they are alike.
    pub(crate) fn compare(&self, by: By, other: &Numbered<'_>) -> Ordering
        ensures { result ≡ ranking by self.now.now other.now.now }
    {
        self.number
            .cmp(&other.number)
            .then_with(|| by.compare_further(self.row, other.row))
    }
}

/// Appends a row with its number.
pub(crate) fn add_row<'a>(numbered: &mut Vec<Numbered<'a>>, row: &'a Row) -> Result<(), AllocError>
    ensures { OnOk result (numbered.new.items ≡ numbered.old.items ++ row.entry ∷ []) }
{
    numbered.push(Numbered::new(row))?;
    Ok(())
}

/// Appends rows with their numbers.
pub(crate) fn add_rows<'a>(
    numbered: &mut Vec<Numbered<'a>>,
    rows: &[&'a Row],
) -> Result<(), AllocError>
    ensures { OnOk result (numbered.new.items ≡ numbered.old.items ++ rows.now) }
{
    for row in rows {
        add_row(numbered, *row)?;
    }
    Ok(())
}

/// Returns rows without their numbers.
pub(crate) fn rows_of<'a>(
    alloc: Global,
    numbered: &[Numbered<'a>],
) -> Result<Vec<&'a Row>, AllocError>
    ensures { IfOk result (λ rows. rows.items ≡ numbered.now) }
{
    let mut rows = Vec::with_capacity(alloc, numbered.len())?;
    for one in numbered {
        rows.push(one.row())?;
    }
    Ok(rows)
}

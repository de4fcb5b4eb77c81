//! The rows that a first pass over two lists leaves over, as a set that finds most other rows without a search.
use crate::numbered::Numbered;
use crate::order::first_number;
use feed_kbart::Row;
use std::alloc::{AllocError, Global};

// The number of marks. Rows whose URLs end alike share one.
const MARKS: usize = 262_144;

// The number of bytes at the end of a URL that choose its mark.
const END: usize = 8;

/// A set of rows: the numbers of their first identifiers in ascending order, and a mark for the URL of each.
#[derive(Drop)]
pub(crate) struct LeftRows {
    numbers: Vec<u32>,
    marks: Vec<bool>,
}

fn mark_of(row: &Row) -> usize {
    let url = row.url();
    let mut mark = 0usize;
    for byte in &url[url.len().saturating_sub(END)..] {
        mark = mark.wrapping_mul(31).wrapping_add(*byte as usize);
    }
    mark % MARKS
}

impl LeftRows {
    fn new(alloc: Global, rows: usize) -> Result<LeftRows, AllocError> {
        Ok(LeftRows {
            numbers: Vec::with_capacity(alloc, rows)?,
            marks: vec![in alloc; false; MARKS]?,
        })
    }

    fn add(&mut self, rows: &[Numbered<'_>]) -> Result<(), AllocError> {
        for row in rows {
            self.numbers.push(row.number())?;
            if let Some(mark) = self.marks.get_mut(mark_of(row.row())) {
                *mark = true;
            }
        }
        Ok(())
    }

    /// Returns the set of the rows of two lists.
    pub(crate) fn of(
        alloc: Global,
        old: &[Numbered<'_>],
        new: &[Numbered<'_>],
    ) -> Result<LeftRows, AllocError> {
        let mut left = LeftRows::new(alloc, old.len().saturating_add(new.len()))?;
        left.add(old)?;
        left.add(new)?;
        left.numbers.sort()?;
        Ok(left)
    }

    /// Returns whether a row may be equal to one of the set. A row that is has its mark and its number.
    pub(crate) fn may_have_equal(&self, row: &Row) -> bool {
        self.marks.get(mark_of(row)) == Some(&true)
            && self.numbers.binary_search(&first_number(row)).is_ok()
    }
}

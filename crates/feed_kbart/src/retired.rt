//! Holdings that are no longer used. They are freed in portions, so that no step takes long.
ghost use Rattle.std.specs.Prelude.{◌≡◌, ◌≤◌, ◌-◌, length, nat_lt};
ghost use Rattle.feed_kbart.specs.Retired.{portion};

use crate::index::Index;
use crate::row::Row;
use std::marker::Model;

// The number of rows, or of numbers or places of the index, that are freed at a time. That takes a millisecond at most.
const PORTION: usize = 16_384;

/// Holdings that are no longer used, whose memory is freed in portions. In contracts it is the size of what is left:
/// the number of rows, and of numbers and places in the index.
#[derive(Drop)]
pub struct RetiredHoldings {
    numbers: Vec<u32>,
    places: Vec<u32>,
    rows: Vec<Row>,
}

impl Model for RetiredHoldings {
    ghost use Rattle.std.specs.Prelude.{ℕ, ◌+◌, length};

    ghost Value = { ℕ };

    ghost view = { λ r. length r.numbers.items + length r.places.items + length r.rows.items };
}

// Frees at most so many values. Returns how many more may be freed.
fn free_some<T: Drop>(values: &mut Vec<T>, count: usize) -> usize
    ensures freed { length values.new.items ≡ length values.old.items - count }
    ensures left { result ≡ count - length values.old.items }
{
    let rest = count.saturating_sub(values.len());
    let left = values.len().saturating_sub(count);
    values.truncate(left);
    values.shrink_to_fit();
    rest
}

impl RetiredHoldings {
    pub(crate) fn of(rows: Vec<Row>, index: Index) -> RetiredHoldings
        ensures { length rows.items ≤ result }
    {
        let Index { numbers, places } = index;
        RetiredHoldings {
            numbers,
            places,
            rows,
        }
    }

    /// Frees the next portion. Returns whether any is left.
    pub fn free_portion(&mut self) -> bool
        ensures freed { self.new ≡ self.old - portion }
        ensures left { result ≡ nat_lt 0 self.new }
    {
        let rest = free_some(&mut self.numbers, PORTION);
        let rest = free_some(&mut self.places, rest);
        free_some(&mut self.rows, rest);
        !(self.numbers.is_empty() && self.places.is_empty() && self.rows.is_empty())
    }
}

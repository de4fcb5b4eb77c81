//! The counts of a checked list, as values, and their text.
ghost use Rattle.std.specs.Prelude.{◌≡◌, count_by, length};
ghost use Rattle.feed_kbart.specs.Counts.{is_for, place_of};

use crate::count::FileCount;
use crate::fault::Reason;
use crate::holdings::Aside;
use std::fmt;

/// How many rows a list has, and how many of its records are skipped.
#[derive(Clone, Copy, Debug, PartialEq, Eq)]
pub struct Counts {
    pub rows: u32,
    pub skipped: usize,
}

impl Counts {
    /// Returns the counts of a list.
    pub fn of(count: &FileCount) -> Counts
        ensures rows { result.rows ≡ count.now.rows }
        ensures skipped { result.skipped ≡ length count.now.aside }
    {
        Counts {
            rows: count.rows(),
            skipped: count.aside().len(),
        }
    }
}

impl fmt::Display for Counts {
    ghost use Rattle.std.specs.Prelude.{Some};
    ghost use Rattle.feed_kbart.specs.CountTexts.{counts_text};

    ghost output = { λ counts. Some (counts_text counts.rows counts.skipped) };

    fn fmt<W: fmt::Write>(&self, f: &mut fmt::Formatter<W>) -> fmt::Result {
        let Counts { rows, skipped } = *self;
        write!(f, "rows {rows} aside {skipped}")
    }
}

/// Returns the number of records that are skipped for this reason.
pub fn count_of(skipped: &[Aside], reason: Reason) -> usize
    ensures { result ≡ count_by (is_for reason) skipped.now }
{
    let mut count = 0usize;
    for aside in skipped {
        if is_for(reason, *aside) {
            count += 1;
        }
    }
    count
}

fn is_for(reason: Reason, aside: Aside) -> bool
    ensures { result ≡ is_for reason aside }
{
    place_of(aside.reason) == place_of(reason)
}

// Returns the place of a reason in the order of the checks.
fn place_of(reason: Reason) -> u8
    ensures { result ≡ place_of reason }
{
    match reason {
        Reason::OtherType => 1,
        Reason::NoIssn => 2,
        Reason::NoIsbn => 3,
        Reason::BadDate => 4,
        Reason::Reversed => 5,
    }
}

//! Prints days and identifiers, and `none` for a value that is absent, and ends the output of a line.
use crate::fault::ListsDriverFault;
use feed_dates::DayRange;
use feed_identifiers::{Isbn, Issn};
use test_support::Out;

/// Prints the first and the last day of a range, counted from 1970-01-01.
pub fn print_days(out: &mut Out<'_>, days: Option<DayRange>) {
    match days {
        Some(days) => print_range(out, days.first, days.last),
        None => out.word("none"),
    }
}

fn print_range(out: &mut Out<'_>, first: i32, last: i32) {
    out.day(first);
    out.word("..");
    out.day(last);
}

/// Prints an ISSN.
pub fn print_issn(out: &mut Out<'_>, issn: Option<Issn>) {
    match issn {
        Some(issn) => out.text(&issn.text()),
        None => out.word("none"),
    }
}

/// Prints an ISBN.
pub fn print_isbn(out: &mut Out<'_>, isbn: Option<Isbn>) {
    match isbn {
        Some(isbn) => out.text(&isbn.text()),
        None => out.word("none"),
    }
}

/// Returns an error if a print has failed.
pub fn finish(out: &Out<'_>) -> Result<(), ListsDriverFault> {
    if out.has_failed() {
        return Err(ListsDriverFault("cannot read or write"));
    }
    Ok(())
}

//! Ranges of days: what a coverage date of a KBART file or a date of an OpenURL covers.
ghost use Rattle.std.specs.Prelude.{◌≡◌, ◌<◌, Some, option_map};
ghost use Rattle.jiff.specs.Words.{epoch_day};
ghost use Rattle.feed_dates.specs.Days.{day_number};
ghost use Rattle.feed_dates.specs.DayRanges.{single_day, days_of_month, days_of_year};

use crate::day::{date_of, day_number_of, number_of, read_four, read_two};
use jiff::civil::Date;

/// The days from a first to a last, both included, each as its number counted from 1970-01-01.
#[derive(Clone, Copy, Debug, PartialEq, Eq)]
pub struct DayRange {
    pub first: i32,
    pub last: i32,
}

fn days_between(first: Date, last: Date) -> DayRange
    ensures { result ≡ record { first = epoch_day first; last = epoch_day last } }
{
    DayRange {
        first: day_number_of(first),
        last: day_number_of(last),
    }
}

fn year_range(year: u16) -> Option<DayRange>
    requires { year < 10000 }
    ensures { result ≡ days_of_year (Some year) }
{
    let first = date_of(year, 1, 1)?;
    let last = date_of(year, 12, 31)?;
    Some(days_between(first, last))
}

fn month_range(year: u16, month: u8) -> Option<DayRange>
    requires year { year < 10000 }
    requires month { month < 100 }
    ensures { result ≡ days_of_month (Some year) (Some month) }
{
    let first = date_of(year, month, 1)?;
    let last = date_of(year, month, first.days_in_month() as u8)?;
    Some(days_between(first, last))
}

fn one_day(year: u16, month: u8, day: u8) -> Option<DayRange>
    requires year { year < 10000 }
    requires month { month < 100 }
    requires day { day < 100 }
    ensures { result ≡ option_map single_day (day_number year month day) }
{
    let number = number_of(year, month, day)?;
    Some(DayRange {
        first: number,
        last: number,
    })
}

impl DayRange {
    ghost use Rattle.feed_dates.specs.DayRanges.{days_of, query_days_of};

    /// Parses a coverage date, `YYYY`, `YYYY-MM` or `YYYY-MM-DD` (NISO RP-9-2014), of the years 0001 to 9999. Returns
    /// `None` for any other text and for a day that is not real. Does not trim.
    pub fn of_text(text: &[u8]) -> Option<DayRange>
        ensures { result ≡ days_of text.now }
    {
        match text {
            [a, b, c, d] => year_range(read_four(*a, *b, *c, *d)?),
            [a, b, c, d, b'-', e, f] => {
                let year = read_four(*a, *b, *c, *d)?;
                month_range(year, read_two(*e, *f)?)
            }
            [a, b, c, d, b'-', e, f, b'-', g, h] => {
                let year = read_four(*a, *b, *c, *d)?;
                let month = read_two(*e, *f)?;
                one_day(year, month, read_two(*g, *h)?)
            }
            _ => None,
        }
    }

    /// Parses a date of a query (Z39.88-2004): a coverage date, `YYYYMM` or `YYYYMMDD`. Does not trim.
    pub fn of_query(text: &[u8]) -> Option<DayRange>
        ensures { result ≡ query_days_of text.now }
    {
        match text {
            [a, b, c, d, e, f] => {
                let year = read_four(*a, *b, *c, *d)?;
                month_range(year, read_two(*e, *f)?)
            }
            [a, b, c, d, e, f, g, h] => {
                let year = read_four(*a, *b, *c, *d)?;
                let month = read_two(*e, *f)?;
                one_day(year, month, read_two(*g, *h)?)
            }
            _ => DayRange::of_text(text),
        }
    }
}

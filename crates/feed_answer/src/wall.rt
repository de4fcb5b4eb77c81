//! The most recent days, months or years, and the day with which they begin.
ghost use Rattle.std.specs.Prelude.{◌≡◌, ◌<◌, ◌≤ℤ◌, neg_ℤ, pos};
ghost use Rattle.feed_answer.specs.Embargo.{first_of_month, start};

use crate::today::Today;
use jiff_core::civil::Date;

/// The most recent days, months or years of the calendar, counting the one that holds today.
#[derive(Clone, Copy, Debug, PartialEq, Eq)]
pub enum Span {
    /// So many days.
    Days(u32),
    /// So many months.
    Months(u32),
    /// So many years.
    Years(u32),
}

// The first day of a month, which is counted from January of the year 0.
fn first_of_month(month: u32) -> i64
    requires { month < 120_000 }
    ensures value { result ≡ first_of_month month }
    ensures bound { neg_ℤ (pos 8_589_934_592) ≤ℤ result }
{
    let first = Date {
        year: (month / 12) as i16,
        month: (month % 12 + 1) as u8,
        day: 1,
    };
    i64::from(first.to_unix_epoch_day())
}

/// Returns the first day of a span, counted from 1970-01-01. A month or a year that would begin before the year 0
/// begins with it.
pub(crate) fn start_of(span: Span, today: &Today) -> i64
    ensures value { result ≡ start today.now span }
    ensures bound { neg_ℤ (pos 8_589_934_592) ≤ℤ result }
{
    match span {
        Span::Days(length) => i64::from(today.day()) - i64::from(length.saturating_sub(1)),
        Span::Months(length) => {
            first_of_month(today.month().saturating_sub(length.saturating_sub(1)))
        }
        Span::Years(length) => {
            let year = (today.month() / 12).saturating_sub(length.saturating_sub(1));
            first_of_month(12 * year)
        }
    }
}

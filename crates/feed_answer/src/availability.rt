//! How the days that a query asks for lie in those that are open to readers.
ghost use Rattle.std.specs.Prelude.{◌≡◌};
ghost use Rattle.feed_answer.specs.Availability.{availability_in, availability_of, begins_by, has_all, has_days};
ghost use Rattle.feed_answer.specs.Availability.{lasts_to, shares_day};

use crate::embargo::{Embargo, OpenDays};
use crate::today::Today;
use feed_dates::DayRange;

/// How the days that a query asks for lie in those that are open to readers.
#[derive(Clone, Copy, Debug, PartialEq, Eq)]
pub enum Availability {
    /// All of them are open.
    Available,
    /// Some of them are open, but not all.
    Partly,
    /// Days were not compared: the query or the list has none, or the embargo has another form.
    NotCompared,
    /// None of them is open.
    Embargoed,
}

fn begins_by(first: Option<i64>, day: i64) -> bool
    ensures { result ≡ begins_by first day }
{
    first.is_none_or(|first| first <= day)
}

fn lasts_to(last: Option<i64>, day: i64) -> bool
    ensures { result ≡ lasts_to last day }
{
    last.is_none_or(|last| day <= last)
}

fn has_days(opened: OpenDays) -> bool
    ensures { result ≡ has_days opened }
{
    match (opened.first, opened.last) {
        (Some(first), Some(last)) => first <= last,
        _ => true,
    }
}

fn shares_day(opened: OpenDays, days: DayRange) -> bool
    ensures { result ≡ shares_day opened days }
{
    has_days(opened)
        && begins_by(opened.first, i64::from(days.last))
        && lasts_to(opened.last, i64::from(days.first))
}

fn has_all(opened: OpenDays, days: DayRange) -> bool
    ensures { result ≡ has_all opened days }
{
    begins_by(opened.first, i64::from(days.first)) && lasts_to(opened.last, i64::from(days.last))
}

fn availability_in(opened: OpenDays, days: DayRange) -> Availability
    ensures { result ≡ availability_in opened days }
{
    if !shares_day(opened, days) {
        Availability::Embargoed
    } else if has_all(opened, days) {
        Availability::Available
    } else {
        Availability::Partly
    }
}

/// Returns how the days that a query asks for lie in those of a row that are open today. The row has this
/// `embargo_info` and this coverage, from a first day to a last one, counted from 1970-01-01, as far as there are such.
pub fn availability_of(
    today: &Today,
    embargo: &[u8],
    first: Option<i32>,
    last: Option<i32>,
    days: Option<DayRange>,
) -> Availability
    ensures { result ≡ availability_of today.now embargo.now first last days }
{
    let Some(days) = days else {
        return Availability::NotCompared;
    };
    if first.is_none() && last.is_none() {
        return Availability::NotCompared;
    }
    match Embargo::read(embargo) {
        Some(embargo) => availability_in(embargo.open_days(today, first, last), days),
        None => Availability::NotCompared,
    }
}

//! The day on which embargoes are evaluated.
ghost use Rattle.std.specs.Prelude.{◌≡◌, ◌<◌, ℕ, MatchOption, pos};

use jiff_core::civil::Date;
use std::marker::Model;

/// The day on which embargoes are evaluated, with its month. The year is 1 to 9999.
#[derive(Clone, Copy)]
pub struct Today {
    /// The day's number, counted from 1970-01-01.
    day: i32,
    /// The month, counted from January of the year 0.
    month: u32,
}

impl Model for Today {
    ghost use Rattle.std.specs.Prelude.{◌<◌};
    ghost use Rattle.feed_answer.specs.Today.{TodayValue};

    ghost Value = { TodayValue };

    ghost view = { λ t. record { day = t.day; month = t.month } };

    ghost inverse = { λ v. record { day = v.day; month = v.month } };

    ghost invariant = { λ t. t.month < 120_000 };
}

impl Today {
    ghost use Rattle.feed_answer.specs.Today.{IsDayOfMonth};

    /// Returns the day with this number, counted from 1970-01-01, or `None` for a day outside the years 1 to 9999.
    pub fn new(day: i32) -> Option<Today>
        ensures { MatchOption result ((month : ℕ) → ¬ IsDayOfMonth month day)
            (λ today. (today.day ≡ day) × IsDayOfMonth today.month day) }
    {
        let Ok(date) = Date::from_unix_epoch_day(i64::from(day)) else {
            return None;
        };
        if date.year < 1 {
            return None;
        }
        let month = date.year as u32 * 12 + u32::from(date.month) - 1;
        Some(Today { day, month })
    }

    /// Returns 1970-01-01.
    pub fn epoch() -> Today
        ensures { result ≡ record { day = pos 0; month = 23_640 } }
    {
        Today {
            day: 0,
            month: 23_640,
        }
    }

    /// Returns the day's number, counted from 1970-01-01.
    pub fn day(&self) -> i32
        ensures { result ≡ self.now.day }
    {
        self.day
    }

    /// Returns the month, counted from January of the year 0.
    pub(crate) fn month(&self) -> u32
        ensures month { result ≡ self.now.month }
        ensures bound { result < 120_000 }
    {
        self.month
    }
}

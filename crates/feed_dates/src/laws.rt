//! Laws of dates, each stated as the contract of a function with an empty body.
ghost use Rattle.std.specs.Prelude.{ℕ, List};
ghost use Rattle.feed_dates.specs.Days.{DayNumbersFit, OneDateForDay, OneDayForDate};
ghost use Rattle.feed_dates.specs.DayRanges.{DatesAreRanges};

/// No text is the date of two days.
pub fn one_day_for_date()
    ensures { OneDayForDate }
{}

/// A day has no date other than the one that its number spells.
pub fn one_date_for_day()
    ensures { OneDateForDay }
{}

/// The number of a day that has a date fits 32 bits.
pub fn day_numbers_fit()
    ensures { DayNumbersFit }
{}

/// The days of a date text are the least and the greatest day whose written date `YYYY-MM-DD` begins with it. If a
/// text is not a date, no day's written date begins with it.
pub fn dates_are_ranges()
    ensures { (text : List ℕ) → DatesAreRanges text }
{}

//! Days of the Gregorian calendar, and the texts that name them: `YYYY-MM-DD`, its prefixes `YYYY` and
//! `YYYY-MM` (ISO 8601), and the dates of a query.
#![tactic(auto)]

mod day;
mod day_range;
mod laws;

pub use day::{read_date, write_date};
pub use day_range::DayRange;
pub use laws::{dates_are_ranges, day_numbers_fit, one_date_for_day, one_day_for_date};

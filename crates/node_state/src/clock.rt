//! The day of the clock.
use feed_answer::Today;
use std::time::{SystemTime, UNIX_EPOCH};

const DAY_SECONDS: u64 = 86_400;

/// Returns the number of the clock's day, in UTC, counted from 1970-01-01. It is 0 if the clock fails.
pub fn day_number(rt: &HostRuntime) -> i32 {
    match number_of(rt) {
        Some(number) => number,
        None => 0,
    }
}

fn number_of(rt: &HostRuntime) -> Option<i32> {
    let now = SystemTime::now(rt).ok()?;
    let since = now.duration_since(UNIX_EPOCH).ok()?;
    i32::try_from(since.as_secs() / DAY_SECONDS).ok()
}

/// Returns the day with this number, or 1970-01-01 for a day outside the years 1 to 9999.
pub fn today(number: i32) -> Today {
    match Today::new(number) {
        Some(today) => today,
        None => Today::epoch(),
    }
}

/// Returns the seconds since 1970-01-01, in UTC, or 0 if the clock has none.
pub fn unix_seconds(rt: &HostRuntime) -> u64 {
    match SystemTime::now(rt) {
        Ok(now) => match now.duration_since(UNIX_EPOCH) {
            Ok(passed) => passed.as_secs(),
            Err(_) => 0,
        },
        Err(_) => 0,
    }
}

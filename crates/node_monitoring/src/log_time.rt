//! Writes the time of a line, as 25/Nov/2026:07:45:00, in UTC.
ghost use Rattle.std.specs.Prelude.{◌≡◌, ◌++◌, OnOk, pos};
ghost use Rattle.node_monitoring.specs.LogTimes.{clock_text, day_text, days_in, month_name, month_of, time_text, two};

use crate::log_escape::put;
use feed_dates::write_date;
use std::alloc::AllocError;

fn month_name(number: u8) -> &'static [u8]
    ensures { result.now ≡ month_name number }
{
    match number {
        1 => b"Jan",
        2 => b"Feb",
        3 => b"Mar",
        4 => b"Apr",
        5 => b"May",
        6 => b"Jun",
        7 => b"Jul",
        8 => b"Aug",
        9 => b"Sep",
        10 => b"Oct",
        11 => b"Nov",
        _ => b"Dec",
    }
}

// Returns the name of the month of a date, YYYY-MM-DD.
fn month_of(date: &[u8; 10]) -> &'static [u8]
    ensures { result.now ≡ month_of date.now }
{
    month_name(date[5].saturating_sub(48).min(1) * 10 + date[6].saturating_sub(48).min(9))
}

fn put_day(out: &mut Vec<u8>, date: &[u8; 10]) -> Result<(), AllocError>
    ensures { OnOk result (out.new.items ≡ out.old.items ++ day_text date.now) }
{
    put(out, &[date[8], date[9], b'/'])?;
    put(out, month_of(date))?;
    put(out, &[b'/', date[0], date[1], date[2], date[3]])
}

// Returns the last two decimal digits of a number.
fn two(number: u64) -> [u8; 2]
    ensures { result ≡ two number }
{
    [b'0' + (number / 10 % 10) as u8, b'0' + (number % 10) as u8]
}

fn put_clock(out: &mut Vec<u8>, time: u64) -> Result<(), AllocError>
    ensures { OnOk result (out.new.items ≡ out.old.items ++ clock_text time) }
{
    let [a, b] = two(time / 3600);
    let [c, d] = two(time / 60 % 60);
    let [e, f] = two(time % 60);
    put(out, &[b':', a, b, b':', c, d, b':', e, f])
}

// Returns the number of the day, counted from 1970-01-01. It is the greatest of 32 bits after the year 9999.
fn day_in(seconds: u64) -> i32
    ensures { result ≡ pos (days_in seconds) }
{
    (seconds / 86_400).min(2_147_483_647) as i32
}

/// Writes the time that is this many seconds after 1970-01-01. After the year 9999 it has no day.
pub(crate) fn put_time(out: &mut Vec<u8>, seconds: u64) -> Result<(), AllocError>
    ensures { OnOk result (out.new.items ≡ out.old.items ++ time_text seconds) }
{
    if let Some(date) = write_date(day_in(seconds)) {
        put_day(out, &date)?;
    }
    put_clock(out, seconds % 86_400)
}

//! Parsing and writing one day as `YYYY-MM-DD`, and its number counted from 1970-01-01.
ghost use Rattle.std.specs.Prelude.{◌≡◌, ◌<◌, ℤ, pos, IfSome, MatchOption, option_map};
ghost use Rattle.jiff.specs.Words.{IsYmd, epoch_day};
ghost use Rattle.feed_dates.specs.Days.{IsDateOf, date_of_day, day_number, day_of_date, four_digits, two, two_digits};
ghost use Rattle.feed_dates.specs.Days.{ymd_text};

use jiff::civil::Date;
use jiff_core::civil::Date as PlainDate;

/// Parses `YYYY-MM-DD` and returns the day's number, counted from 1970-01-01. Returns `None` for a text of another
/// form, and for a day that the calendar of the years 0001 to 9999 does not have. Does not trim.
pub fn read_date(text: &[u8]) -> Option<i32>
    ensures { MatchOption result ((n : ℤ) → ¬ (IsDateOf n text.now)) (λ n. IsDateOf n text.now) }
{
    day_of(text)
}

/// Returns the date `YYYY-MM-DD` of the day with this number, counted from 1970-01-01, or `None` for a day outside the
/// years 0001 to 9999.
pub fn write_date(day: i32) -> Option<[u8; 10]>
    ensures { result ≡ date_of_day day }
{
    let Ok(date) = PlainDate::from_unix_epoch_day(i64::from(day)) else {
        return None;
    };
    if date.year < 1 {
        return None;
    }
    Some(ymd_text(date.year as u16, date.month, date.day))
}

fn ymd_text(year: u16, month: u8, day: u8) -> [u8; 10]
    ensures { result ≡ ymd_text year month day }
{
    let [a, b] = two(year / 100);
    let [c, d] = two(year);
    let [e, f] = two(u16::from(month));
    let [g, h] = two(u16::from(day));
    [a, b, c, d, b'-', e, f, b'-', g, h]
}

fn two(number: u16) -> [u8; 2]
    ensures { result ≡ two number }
{
    [b'0' + (number / 10 % 10) as u8, b'0' + (number % 10) as u8]
}

fn day_of(text: &[u8]) -> Option<i32>
    ensures { result ≡ day_of_date text.now }
{
    match text {
        [a, b, c, d, b'-', e, f, b'-', g, h] => {
            let year = read_four(*a, *b, *c, *d)?;
            let month = read_two(*e, *f)?;
            number_of(year, month, read_two(*g, *h)?)
        }
        _ => None,
    }
}

pub(crate) fn read_two(a: u8, b: u8) -> Option<u8>
    ensures value { result ≡ two_digits a b }
    ensures bound { IfSome result (λ n. n < 100) }
{
    if a.is_ascii_digit() && b.is_ascii_digit() {
        Some((a - b'0') * 10 + (b - b'0'))
    } else {
        None
    }
}

pub(crate) fn read_four(a: u8, b: u8, c: u8, d: u8) -> Option<u16>
    ensures value { result ≡ four_digits a b c d }
    ensures bound { IfSome result (λ n. n < 10000) }
{
    let century = read_two(a, b)?;
    let year = read_two(c, d)?;
    Some(u16::from(century) * 100 + u16::from(year))
}

/// Returns the date, if it is real and its year is 1 to 9999.
pub(crate) fn date_of(year: u16, month: u8, day: u8) -> Option<Date>
    requires year { year < 10000 }
    requires month { month < 100 }
    requires day { day < 100 }
    ensures number { option_map epoch_day result ≡ day_number year month day }
    ensures parts { IfSome result (IsYmd (pos year) (pos month) (pos day)) }
{
    if year == 0 {
        return None;
    }
    match Date::new(year as i16, month as i8, day as i8) {
        Ok(date) => Some(date),
        Err(_) => None,
    }
}

/// Returns the number of a date's day, counted from 1970-01-01.
pub(crate) fn day_number_of(date: Date) -> i32
    ensures { result ≡ epoch_day date }
{
    date.to_plain().to_unix_epoch_day()
}

/// Returns the number of a day, if it is real and its year is 1 to 9999.
pub(crate) fn number_of(year: u16, month: u8, day: u8) -> Option<i32>
    requires year { year < 10000 }
    requires month { month < 100 }
    requires day { day < 100 }
    ensures { result ≡ day_number year month day }
{
    let date = date_of(year, month, day)?;
    Some(day_number_of(date))
}

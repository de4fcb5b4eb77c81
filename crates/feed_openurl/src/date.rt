//! A date as the core reads it: `YYYY`, `YYYY-MM` or `YYYY-MM-DD`.
ghost use Rattle.std.specs.Prelude.{◌≡◌};
ghost use Rattle.feed_openurl.specs.Dates.{two_digits};

use feed_dates::DayRange;
use std::marker::Model;

/// The text of a year, a month or a day that the calendar has: `YYYY`, `YYYY-MM` or `YYYY-MM-DD`.
#[derive(Drop)]
pub(crate) struct DateText {
    text: [u8; 10],
    length: usize,
}

impl Model for DateText {
    ghost use Rattle.std.specs.Prelude.{ℕ, List, ◌≤◌, take};
    ghost use Rattle.feed_openurl.specs.Texts.{IsDateText};

    ghost Value = { List ℕ };

    ghost view = { λ date. take date.length date.text };

    ghost invariant = { λ date. (date.length ≤ 10) × IsDateText (take date.length date.text) };
}

impl DateText {
    ghost use Rattle.feed_openurl.specs.Dates.{date_of_parts};
    ghost use Rattle.feed_openurl.specs.Texts.{IsDateText, date_text_of};

    /// Parses a date of a query (Z39.88-2004): `YYYY`, `YYYY-MM`, `YYYY-MM-DD`, `YYYYMM` or `YYYYMMDD`, of the years
    /// 0001 to 9999. Does not trim.
    pub(crate) fn of_query(text: &[u8]) -> Option<DateText>
        ensures { result ≡ date_text_of text.now }
    {
        DayRange::of_query(text)?;
        match text {
            [a, b, c, d] => Some(DateText {
                text: [*a, *b, *c, *d, 0, 0, 0, 0, 0, 0],
                length: 4,
            }),
            [a, b, c, d, e, f] => Some(DateText {
                text: [*a, *b, *c, *d, b'-', *e, *f, 0, 0, 0],
                length: 7,
            }),
            [a, b, c, d, b'-', e, f] => Some(DateText {
                text: [*a, *b, *c, *d, b'-', *e, *f, 0, 0, 0],
                length: 7,
            }),
            [a, b, c, d, e, f, g, h] => Some(DateText {
                text: [*a, *b, *c, *d, b'-', *e, *f, b'-', *g, *h],
                length: 10,
            }),
            [a, b, c, d, b'-', e, f, b'-', g, h] => Some(DateText {
                text: [*a, *b, *c, *d, b'-', *e, *f, b'-', *g, *h],
                length: 10,
            }),
            _ => None,
        }
    }

    /// Returns the longest part of a date that the calendar has: the day, the month or the year. A month or a day
    /// that is 0 is absent.
    pub(crate) fn of_parts(year: [u8; 4], month: u8, day: u8) -> Option<DateText>
        ensures { result ≡ date_of_parts year month day }
    {
        let [a, b, c, d] = year;
        let [e, f] = two_digits(month);
        let [g, h] = two_digits(day);
        if let Some(date) = DateText::of_query(&[a, b, c, d, e, f, g, h]) {
            return Some(date);
        }
        match DateText::of_query(&[a, b, c, d, e, f]) {
            Some(date) => Some(date),
            None => DateText::of_query(&[a, b, c, d]),
        }
    }

    /// Returns the text.
    pub(crate) fn as_bytes(&self) -> &[u8]
        ensures value { result.now ≡ self.now }
        ensures date { IsDateText self.now }
    {
        &self.text[..self.length]
    }
}

// The two digits of a number below 100.
fn two_digits(number: u8) -> [u8; 2]
    ensures { result ≡ two_digits number }
{
    [b'0' + number / 10 % 10, b'0' + number % 10]
}
